//! What the program does for questions, whatever keeps the inventory; their answers in lines; and how it ends.
#![tactic(auto)]

mod buffer;
mod cells;
mod columns;
mod desk;
mod endings;
mod fault;
mod lines;
mod page;
mod page_file;
mod picked;
mod questions;
mod sums;
mod task;

pub use buffer::{behind, buffered};
pub use columns::first_columns;
pub use desk::{is_in_memory, open_full, open_in_memory};
pub use endings::{Ending, status};
pub use fault::{ProgramFault, table_name};
pub use page::do_page;
pub use page_file::{PAGE, write_page};
pub use questions::answer;
pub use sums::answer_sum;
pub use task::{DraftWords, ListForm, Task, Work, task_of};
