//! What help says of sheets: their records, and the replies to them.

// What help says of the records of an edit sheet, and of a survey.
pub(crate) const RECORDS: &str =
    "A record has a key, a verb and its fields a to i, 11 fields in all:
  link LINK LENGTH                     a new link; lengths are in whole mm
  class CLASS point|stretch|exclusive  a new class of assets
  route ROUTE PIECES MARKS             a new route of parts of links
  ref REF ROUTE METHOD POS             a referent: a known place with a name
  unref REF                            removes a referent
  enter ASSET CLASS ROUTE SIDE METHOD FROM TO VALUE OFFSET
                                       a new asset; TO is empty at a point
  supersede (fields as enter)          the same, and retires what lay there
  retire ASSET ROUTE METHOD FROM TO    takes an asset away over a stretch
  split ROUTE CHAINAGE NEW             divides a route at one of its marks
  join FIRST SECOND                    appends the second route to the first
  renumber ROUTE NEW                   gives a route another name
  recalibrate ROUTE MARKS              gives a route other marks
  turn ROUTE                           reverses a route
  realign ROUTE FROM TO PIECES MARKS   replaces the ground from FROM to TO
  close ROUTE                          ends a route and abandons its assets
PIECES: LINK:FROM:TO:+ or LINK:FROM:TO:-, one space between two of them.
MARKS: CHAINAGE:MEASURE, from 0 to the route's end, one space between two.
SIDE: L, R or B. METHOD and POS, FROM, TO: abs 3000, rel KM2+500 or int 1/3.
Header: key,verb,a,b,c,d,e,f,g,h,i
Replies: KEY,done,N or KEY,again,N or KEY,refused,CAUSE. See docs/SHEETS.md.

Example: roadlrs edit roads.db first.csv";

pub(crate) const SURVEYED: &str = "A record has a key and one asset, 10 fields in all:
  asset   a new number, never used before
  class   its class: SPEED
  route   the route on which it lies: A38
  side    L, R or B, seen along the route
  method  of from and to: abs, rel or int
  from    where it stands or begins: 3000, KM2+500 or 1/3
  to      where it ends; empty for a class of points, and only there
  value   what it is: 80, W-beam
  offset  how far beside the route, in mm
Header: key,asset,class,route,side,method,from,to,value,offset
It is what edit does with KEY,enter and the same nine fields a to i, and a
refusal names them so: Malformed:a is asset, Malformed:i is offset.
Replies: KEY,done,N or KEY,again,N or KEY,refused,CAUSE. See docs/SHEETS.md.

Example: roadlrs survey roads.db found.csv";

// What help says of a sheet that is tidied.
pub(crate) const TIDIED: &str =
    "It takes semicolons or tabs between fields, UTF-16, a header in another case or
order, missing fields at the end, empty rows, spaces and quotation marks around
fields, other dashes, and numbers that end in .0. A right sheet stays as it is.
Where a field can be read in two ways, as 1.234 or a date that was made of 1/3,
the field is named, the status is 1, and nothing is printed.

Example: roadlrs tidy first.txt > first.csv";

// What help says of the records of a route.
pub(crate) const RECORDED: &str =
    "A route with referents is made with its chainage as the measure, each referent
is set in its millimetre, and then the route gets its marks. A key is the verb,
a dash and a name; give the records keys of your own before you send them.
roadlrs help route shows the verb.

Example: roadlrs route roads.db A1 > a1.csv";

// What help says of a sheet that is drafted.
pub(crate) const DRAFTED: &str = "WHAT, DB and the words behind it:
  split DB ROUTE PLACE NEW                  divides a route at a place
  bypass DB ROUTE FROM TO PIECES OLD        new ground; the old road is OLD
  retire DB ASSET                           takes an asset away wholly
  replace DB ASSET NUMBER VALUE             a new asset where the old one lay
  move DB ASSET NUMBER ROUTE PLACE [PLACE]  the same asset at another place
  merge DB ROUTE ROUTE...                   joins routes in this order
  undo DB [EDIT]                            undoes EDIT and later, or the last
NUMBER is that of the new asset, NEW and OLD are names of new routes.
PLACE, FROM and TO: 3000 (mm), abs:3000, rel:KM2+500 or int:1/3.
PIECES: LINK:FROM:TO:+ or LINK:FROM:TO:-, one space between two of them.
--number N numbers the assets that undo enters anew, from N on. --key PREFIX
begins the keys of the records; else they begin with DRAFT-.

Example: roadlrs draft split roads.db A1 3000 A1N > split.csv";

// What help says of the records of a sheet of questions.
pub(crate) const ASKED: &str =
    "A record has a key, a question and its fields a to d, 6 fields in all:
  at ROUTE METHOD POS             a position's place on its link, what is there
  where ROUTE PLACE               what is at a place, and its position by each
                                  method
  where link LINK MM              the same of a link's millimetre
  translate ROUTE METHOD POS TO   a position by another method or on its link
  find ASSET                      where an asset is
  segments ROUTE SIDE CLASSES     a route, divided where a value changes
  rows [ROUTE] [FROM] [TO] [CLASS]
                                  the stretches that assets hold
  overlay [ROUTE] [SIDE] CLASSES [gaps]
                                  as segments, on all routes; with gaps only
                                  where a class has no value
  lengths [ROUTE]                 how long each value of each class is
  history ASSET                   what became of an asset
METHOD and POS: abs 3000, rel KM2+500 or int 1/3. TO: abs, int, rel:NAME, link.
PLACE, FROM and a TO of rows: 3000 (mm), abs:3000, rel:KM2+500 or int:1/3.
SIDE: L or R. CLASSES: exclusive classes, one space between two of them.
A field in [] may be empty: all routes, both sides, from end to end.
Header: key,question,a,b,c,d
Replies, in the order of the questions:
  KEY,place,ROUTE,MM,LINK,MM,DIRECTION,N  and N lines KEY,hit
  KEY,positions,N                         and N lines KEY,position
  KEY,position,ROUTE,METHOD,POS
  KEY,found,N                             and N lines KEY,row
  KEY,segments,ROUTE,SIDE,N               and N lines KEY,segment
  KEY,rows,N                              and N lines KEY,row
  KEY,overlay,N                           and N lines KEY,segment
  KEY,lengths,N                           and N lines KEY,length
  KEY,history,N                           and N lines KEY,event
  KEY,refused,CAUSE
Behind the hits of where stand its positions. A line of rows, overlay, lengths
or history has what the command of this name prints.
It changes nothing. See docs/SHEETS.md.

Example: roadlrs ask roads.db questions.csv";
