//! What `roadlrs help VERB` prints. Made of docs/SHEETS.md by tools/verb_help.py.

ghost use Rattle.std.specs.Prelude.{◌↔◌, IsSome, IsTrue};
ghost use Rattle.lrs_cli_help.specs.Verbs.{is_verb};

static LINK: &str = "link: Makes a new link: a stretch of road of fixed length, which is never
moved, renumbered or removed.

Field    Column  It may hold
link     a, C    its number
length   b, D    its length in mm

Example:
KM-2026-11-26-0001,link,101,5000000,,,,,,,

Refused, in this order:
LinkKnown       there is a link of this number: take another number; a link of
                a wrong length stays, and is left unused

docs/SHEETS.md has more, and what every record may be refused for.
";

static CLASS: &str = "class: Makes a class of assets.

Field    Column  It may hold
class    a, C    its name
kind     b, D    point: each asset lies at a point; stretch: over a stretch;
                 exclusive: over a stretch, and no two at one place

Example:
KM-2026-11-26-0007,class,SPEED,exclusive,,,,,,,

Refused, in this order:
ClassKnown      there is a class of this name: use that one, or take another
                name

docs/SHEETS.md has more, and what every record may be refused for.
";

static ROUTE: &str = "route: Makes a route of parts of links, with its marks, and without assets or
referents.

Field    Column  It may hold
route    a, C    its name
pieces   b, D    1 to 1,000 pieces, in order
marks    c, E    2 to 1,000 marks

Example:
KM-2026-11-26-0011,route,A38,101:0:5000000:+ 102:0:3000000:-,0:0 5000000:5000 8000000:8000,,,,,,

Refused, in this order:
RouteKnown      there is a route of this name: take another name, or close,
                renumber or realign that route
NoLink          a piece is of a link that is not there: enter the link first,
                or mend its number
BadPiece:N      piece N has FROM not below TO, or ends behind its link: mend
                the piece
Taken:N         piece N shares a millimetre with an earlier piece of this list:
                mend the pieces
TooLong         the route would be longer than 10,000 km: make two routes
Taken:N         piece N shares a millimetre with a route that is there: close
                or realign that route first, or mend the piece
BadMarks:N      mark N breaks a rule: the first is not at 0, one does not rise,
                or the last is not at the route's end: mend the marks; the
                length is the sum of the pieces, and roadlrs list roads.db
                routes prints it

docs/SHEETS.md has more, and what every record may be refused for.
";

static REF: &str = "ref: Names a known place on a route, from which distances are counted: a
kilometre post, a bridge.

Field    Column  It may hold
referent a, C    its name, one in the whole inventory
route    b, D    the route on which the position is
method   c, E    the method of the position
position d, F    where it stands

Example:
KM-2026-11-26-0016,ref,KM2,A38,abs,2000,,,,,

Refused, in this order:
RefKnown        there is a referent of this name: take another name, or unref
                that one first
NoRoute         there is no such route: mend the name
NoRef           the position counts from a referent that is not on this route:
                enter that one first, or mend its name
OffRoute        the measure is outside the marks, or the distance leads off the
                route: mend the position

docs/SHEETS.md has more, and what every record may be refused for.
";

static UNREF: &str = "unref: Removes a referent.

Field    Column  It may hold
referent a, C    its name

Example:
KM-2026-11-26-0020,unref,BRIDGE,,,,,,,,

Refused, in this order:
NoRef           there is no referent of this name: nothing: it is not there, or
                its ground has left its route

docs/SHEETS.md has more, and what every record may be refused for.
";

static ENTER: &str = "enter: Enters a new asset: it comes to hold each millimetre of its point or
stretch, on its side or sides.

Field    Column  It may hold
asset    a, C    a new number
class    b, D    its class
route    c, E    the route on which it lies
side     d, F    L, R or B
method   e, G    the method of both positions
from     f, H    where it stands, or begins
to       g, I    where it ends; empty for a class of kind point, and only there
value    h, J    what it is: a speed, a type
offset   i, K    how far beside the route, in mm; 0 where that says nothing

Example:
KM-2026-11-26-0022,enter,1001,SPEED,A38,B,abs,2000,8000,80,0

Refused, in this order:
AssetKnown      the number was used before, also if that asset is retired: take
                a new number
NoClass         there is no such class: mend the name, or enter the class first
NoRoute         there is no such route: mend the name
WrongKind       to is empty and the class is not of points, or to is there and
                the class is of points: mend to, or the class
NoRef           from counts from a referent that is not on this route: enter
                the referent, or mend its name
OffRoute        from is outside the marks or leads off the route: mend from
NoRef, OffRoute  the same of to: mend to
Empty           from is not before to, in whole millimetres: swap them, or make
                the stretch longer
Overlap:N       the class is exclusive, and asset N of it lies on one of the
                places: supersede, or retire N there first, or mend the
                positions

docs/SHEETS.md has more, and what every record may be refused for.
";

static RETIRE: &str = "retire: Takes an asset away over a stretch, on both sides: because it is gone
from the road, or was entered wrongly.

Field    Column  It may hold
asset    a, C    its number
route    b, D    the route on which the stretch is
method   c, E    the method of both positions
from     d, F    where the point is, or the stretch begins
to       e, G    where the stretch ends; empty for a class of points, and only
                 there

Example:
KM-2026-11-26-0028,retire,2002,A38,int,1/1,,,,,

Refused, in this order:
NoAsset         no asset of this number was ever entered: mend the number
NoRoute         there is no such route: mend the name; find says where the
                asset lies
WrongKind       to is empty and the asset's class is not of points, or the
                reverse: mend to
NoRef           from counts from a referent that is not on this route: mend it
OffRoute        from is outside the marks or leads off the route: mend from
NoRef, OffRoute  the same of to: mend to
Empty           from is not before to, or the asset holds nothing there, as
                when it was retired before: see where it lies with find; a
                point must be named to its millimetre

docs/SHEETS.md has more, and what every record may be refused for.
";

static SUPERSEDE: &str =
    "supersede: Enters a new asset of an exclusive class, and retires what lay there
of this class: a new speed limit, a new surface.

Field    Column  It may hold
asset    a, C    a new number
class    b, D    its class, an exclusive one
route    c, E    the route on which it lies
side     d, F    L, R or B
method   e, G    the method of both positions
from     f, H    where it begins
to       g, I    where it ends
value    h, J    what it is
offset   i, K    how far beside the route, in mm

Example:
KM-2026-11-26-0031,supersede,1003,SPEED,A38,B,abs,3800,4600,50,0

Refused, in this order:
AssetKnown      the number was used before: take a new number
NoClass         there is no such class: mend the name
NoRoute         there is no such route: mend the name
WrongKind       to is empty, or the class is not exclusive: mend to; for
                another class retire the old asset and enter the new one
NoRef           from counts from a referent that is not on this route: mend it
OffRoute        from is outside the marks or leads off the route: mend from
NoRef, OffRoute  the same of to: mend to
Empty           from is not before to, in whole millimetres: mend the positions

docs/SHEETS.md has more, and what every record may be refused for.
";

static SPLIT: &str = "split: Divides a route at a mark: the part from there on becomes a new route.

Field     Column  It may hold
route     a, C    the route
chainage  b, D    where, in mm from its start: that of a mark, not the first or
                  the last
new route c, E    the name of the second part

Example:
KM-2026-11-26-0033,split,A38,2500000,A380,,,,,,

Refused, in this order:
NoRoute         there is no such route: mend the name
RouteKnown      the new name is that of a route, this one included: take
                another name
NoMark          no inner mark is at this chainage: recalibrate first, with the
                same marks and one more there; a mark on the line changes no
                measure

docs/SHEETS.md has more, and what every record may be refused for.
";

static RENUMBER: &str = "renumber: Gives a route another name.

Field     Column  It may hold
route     a, C    the route
new route b, D    its new name

Example:
KM-2026-11-26-0035,renumber,A380,A381,,,,,,,

Refused, in this order:
NoRoute         there is no such route: mend the name
RouteKnown      there is a route of the new name, this one included: take
                another name

docs/SHEETS.md has more, and what every record may be refused for.
";

static RECALIBRATE: &str =
    "recalibrate: Gives a route new marks, as when its posts were moved or counted
anew.

Field    Column  It may hold
route    a, C    the route
marks    b, D    all its marks

Example:
KM-2026-11-26-0036,recalibrate,A381,0:0 1000000:1000 3000000:3000,,,,,,,

Refused, in this order:
NoRoute         there is no such route: mend the name
BadMarks:N      mark N breaks a rule: mend the marks; the last is at the
                route's length, which the first line of strip has in metres

docs/SHEETS.md has more, and what every record may be refused for.
";

static JOIN: &str = "join: Appends a second route to a first one.

Field    Column  It may hold
first    a, C    the route that goes on
second   b, D    the route that is appended

Example:
KM-2026-11-26-0038,join,A38,A381,,,,,,,

Refused, in this order:
NoRoute         there is no such first route, or no such second one: mend the
                name
SameRoute       both are one route: mend a name
TooLong         the whole would be above 10,000 km, 1,000 pieces or 1,000
                marks: recalibrate with fewer marks, or leave them apart
MeasureRange    a measure would be above 100,000,000,000: recalibrate the first
                to smaller measures

docs/SHEETS.md has more, and what every record may be refused for.
";

static TURN: &str = "turn: Reverses a route.

Field    Column  It may hold
route    a, C    the route

Example:
KM-2026-11-26-0039,turn,B4101,,,,,,,,

Refused, in this order:
NoRoute         there is no such route: mend the name

docs/SHEETS.md has more, and what every record may be refused for.
";

static REALIGN: &str =
    "realign: Replaces a stretch of a route by other ground: a bypass, a new bend.

Field    Column  It may hold
route    a, C    the route
from     b, D    the chainage at which the old stretch begins, in mm
to       c, E    the chainage at which it ends
pieces   d, F    what comes in its place; empty where nothing does
marks    e, G    the marks of the whole new route

Example:
KM-2026-11-26-0040,realign,A38,4000000,5000000,103:0:2200000:+,0:0 4000000:4000 6200000:6200 9200000:9200,,,,

Refused, in this order:
NoRoute         there is no such route: mend the name
OffRoute        from or to is above the route's length: mend it: they are
                chainages in mm, and no measures
Empty           from is above to, or they are equal and there are no pieces:
                mend them
NoLink          a piece is of a link that is not there: enter the link first
BadPiece:N      piece N has FROM not below TO, or ends behind its link: mend
                the piece
Taken:N         piece N shares a millimetre with an earlier piece of this list:
                mend the pieces
Taken:N         piece N shares a millimetre with a route, the stretch that is
                replaced included: leave out of the stretch what stays; for
                ground of another route close or realign that one first
TooLong         the whole would be above 10,000 km or 1,000 pieces: make two
                routes
NothingLeft     the whole route would go: close it
BadMarks:N      mark N breaks a rule for the new route: mend the marks; the new
                length is old length less stretch and plus pieces

docs/SHEETS.md has more, and what every record may be refused for.
";

static CLOSE: &str = "close: Ends a route.

Field    Column  It may hold
route    a, C    the route

Example:
KM-2026-11-26-0042,close,B4101,,,,,,,,

Refused, in this order:
NoRoute         there is no such route: mend the name

docs/SHEETS.md has more, and what every record may be refused for.
";

/// The help on a verb of edit sheets: none where there is no such verb.
pub fn verb_help(verb: &str) -> Option<&'static str>
    ensures { IsSome result ↔ IsTrue (is_verb verb.now) }
{
    match verb {
        "link" => Some(LINK),
        "class" => Some(CLASS),
        "route" => Some(ROUTE),
        "ref" => Some(REF),
        "unref" => Some(UNREF),
        "enter" => Some(ENTER),
        "retire" => Some(RETIRE),
        "supersede" => Some(SUPERSEDE),
        "split" => Some(SPLIT),
        "renumber" => Some(RENUMBER),
        "recalibrate" => Some(RECALIBRATE),
        "join" => Some(JOIN),
        "turn" => Some(TURN),
        "realign" => Some(REALIGN),
        "close" => Some(CLOSE),
        _ => None,
    }
}
