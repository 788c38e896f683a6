//! What help says of the words and options of a job.

pub(crate) const DB: &str = "The inventory's file, or :memory: for a fresh one in memory";

pub(crate) const SHEET: &str = "The sheet's file, or stdin for the standard input";

pub(crate) const FILE: &str = "The file that a spreadsheet wrote, or stdin for the standard input";

pub(crate) const QUESTIONS: &str = "The file of the questions, or stdin for the standard input";

pub(crate) const ROUTE: &str = "The name of a route";

pub(crate) const METHOD: &str =
    "What POS is: abs (a measure), rel (a distance), int (a proportion)";

pub(crate) const POS: &str = "As 3000 (abs), KM2+500 (rel, in mm) or 1/3 (int)";

pub(crate) const TO: &str = "abs, int, rel:NAME of a referent, or link";

pub(crate) const SIDE: &str = "The side, seen along the route: L or R";

pub(crate) const CLASS: &str = "The names of exclusive classes";

pub(crate) const CLASSES: &str = "The names of classes; all where none is named";

pub(crate) const FROM_PLACE: &str = "From this place: 3000 (mm), abs:3000, rel:KM2+500 or int:1/3";

pub(crate) const TO_PLACE: &str = "To this place; else to the end";

pub(crate) const ASSET: &str = "The number of an asset";

pub(crate) const PORT: &str = "A port of 127.0.0.1, from 1 to 65535";

pub(crate) const MAX: &str = "How many connections are served, at most 1000000";

pub(crate) const DIR: &str = "The folder that gets index.html; made where it is missing";

pub(crate) const SUMS: &str = "Gives a new file checksums, so that damage is found";

pub(crate) const RESUME: &str =
    "Goes on after the last record of the sheet that was accepted before";

pub(crate) const ALL: &str = "Does the sheet only if no record of it is refused";

pub(crate) const WHOLE: &str = "Does the sheet only if its last line has an end";

pub(crate) const AS_TEXT: &str = "Writes each cell as text, for a spreadsheet";

pub(crate) const COLUMNS: &str =
    "Only these columns, in this order: names of the header, a comma between two";

pub(crate) const AS_SURVEY: &str = "The sheet is a survey";

pub(crate) const OF_SIDE: &str = "On this side, seen along the route: L or R; else on both";

pub(crate) const BY: &str =
    "By combinations of values of these exclusive classes, a comma between two";

pub(crate) const GAPS: &str = "Only where a class has no value";

pub(crate) const WHAT: &str = "What is listed: routes, links, classes, refs, marks or pieces";

pub(crate) const OF_ROUTE: &str = "On this route; else on all";

pub(crate) const OF_LISTED_ROUTE: &str =
    "Of refs, marks or pieces: those of this route; else of all";

pub(crate) const ROWS_FROM: &str =
    "What lies after this place: 3000 (mm), abs:3000, rel:KM2+500 or int:1/3";

pub(crate) const ROWS_TO: &str = "What lies before this place";

pub(crate) const EXACT: &str = "Measures as whole numbers or fractions, and not as decimals";

pub(crate) const EXACT_REFS: &str =
    "Of refs: measures as whole numbers or fractions, and not as decimals";

pub(crate) const ON_LINKS: &str = "Stretches of links, with sides seen along the link";

pub(crate) const OF_CLASS: &str = "Of this class; else of all";

pub(crate) const OF_ASSET: &str = "Of the asset of this number; else of all";

pub(crate) const OF_EDIT: &str = "By the edit of this number; else by all";

pub(crate) const SINCE: &str = "By edits from this number on";

pub(crate) const UNTIL: &str = "By edits up to this number";

pub(crate) const PLACE: &str =
    "A chainage of the route in millimetres, or a position: abs:3000, rel:KM2+500, int:1/3";

pub(crate) const MM: &str = "After the word link and a link's number: a millimetre of the link";

pub(crate) const TELLING: &str =
    "Writes a line for each request on standard error, and a count at the end";

pub(crate) const END_ON_FAULT: &str = "Ends with status 3 once the inventory was not written";

pub(crate) const MOST_REPLY: &str =
    "How many bytes a reply has at most, 67108864 unless said; a longer one is a 503";

pub(crate) const WITH_PAGE: &str =
    "Shows the web page at /; takes no sheet of a page from elsewhere";

pub(crate) const UNTIL_EDIT: &str = "The number of the last edit; else to the last one of all";

pub(crate) const FROM_EDIT: &str = "The number of the first edit; else from the first one of all";

pub(crate) const OF_KEY: &str = "The edit of this key alone";

pub(crate) const AS_SUM: &str =
    "The sum of all edits, or of those up to edit FROM, in place of them";

pub(crate) const COMPARED: &str =
    "An inventory's file, :memory:, or :log FILE for what a log makes";

pub(crate) const OTHER: &str = "The other inventory, said in the same way";

pub(crate) const SINCE_EDIT: &str =
    "What the edits from this number on changed; stands in place of OTHER";

pub(crate) const DIFFERING: &str = "Prints what the sheet would change, and not its replies";

pub(crate) const ASKING: &str = "Shows what would change, and does it only at yes";

pub(crate) const WANTED: &str =
    "What is wanted: split, bypass, retire, replace, move, merge or undo";

pub(crate) const DRAFT_WORDS: &str = "What it is wanted of, as said below";

pub(crate) const NUMBER: &str = "Of undo: the number of the first asset that is entered anew";

pub(crate) const KEY_FRONT: &str = "What the keys of the sheet begin with; DRAFT- unless said";
