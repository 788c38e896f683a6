//! The back of the web page, page/index.html: tools/embed.py writes this file.

macro_rules! page_back {
    ($front:literal) => {
        concat!($front, r##"function cutsOf(rows) {const isWide = ({ x, end }) => end - x >= LEAST_PARTED;const cuts = rows.filter((row, at) => at && rows[at - 1].end === row.x && rows[at - 1].value !== row.value && isWide(row) && isWide(rows[at - 1]));
return cuts.length ? [`<path data-cut='${cuts.length}' d='${cuts.map(({ x }) => `M${x} -65v130`).join("")}'/>`] : [];}
function countsOf(points) {const counts = new Map(), texts = [];for (const { x } of points) counts.set(x, (counts.get(x) || 0) + 1);let free = 0;for (const [x, count] of counts) {if (count === 1 || x < free) continue;
texts.push(`<text data-count='${count}' x='${x - 20}' y='-25' text-anchor='end'>${count}\u00d7<\/text>`);free = x + WIDE_COUNT;}
return texts;}
function pointNear(tick, x) {const { side } = tick.dataset, { class: name } = tick.closest("g[data-class]").dataset;const points = seen.things.filter(thing => thing.class === name && thing.side === side);
return points.reduce((best, thing) => (best && Math.abs(best.x - x) <= Math.abs(thing.x - x) ? best : thing), undefined);}
function drawMarks(marks) {const svg = shownDiagram();if (!svg) return;for (const old of svg.querySelectorAll("[data-mark]")) old.remove();const tall = svg.viewBox.baseVal.height;for (const { from, to, text } of marks) {
if (to <= seen.from || from >= seen.to) continue;const left = across(Math.max(from, seen.from)), wide = Math.max(across(Math.min(to, seen.to)) - left, 30);const group = drawn("g", { "data-mark": text, "pointer-events": "none" });
group.append(drawn("rect", { x: left - 20, y: 20, width: wide + 40, height: tall - 40, "stroke-width": 30, "stroke-dasharray": "90 45" }),
drawn("text", { x: Math.min(left + 40, 9800), y: 170, "font-size": 150, "stroke-width": 40, "paint-order": "stroke" }, text),);svg.append(group);}
}
function unitsAt(event) {return new DOMPoint(event.clientX, event.clientY).matrixTransform(shownDiagram().getScreenCTM().inverse()).x;}
function thingsAt(x, off) {const found = seen.things.filter(thing => !off.has(thing.class) && (thing.kind === "point" ? Math.abs(thing.x - x) <= NEAR : thing.x <= x && x < thing.end));
const names = found.slice(0, MOST_UNDER).map(({ class: name, side, asset, value }) => `${name} ${side} ${value} (asset ${asset})`);return found.length > names.length ? [...names, `and ${found.length - names.length} more`] : names;}
const ONE_GESTURE = 1500, LEAST_SPAN = 10;const view = { route: null, address: {}, from: 0, to: 0, asset: [], place: [] };let shows = () => {}, lastGesture = 0;function start(showing) {shows = showing;
window.onhashchange = () => shows(readAddress(location.hash.slice(1)));return shows(readAddress(location.hash.slice(1)));}
function showAgain() {view.address = {};return shows(readAddress(location.hash.slice(1)));}
function go(address, isGesture = false) {const now = Date.now(), target = `#${writeAddress(address)}`;if (isGesture && now - lastGesture < ONE_GESTURE) history.replaceState(null, "", target);
else if (target !== location.hash) history.pushState(null, "", target);lastGesture = isGesture ? now : 0;return shows(address);}
function within(from, to, length) {const span = Math.min(Math.max(Math.round(to - from), LEAST_SPAN), length), start = Math.min(Math.max(Math.round(from), 0), length - span);return [start, start + span];}
function showRange(from, to, isGesture) {const { length } = view.route, [start, end] = within(from, to, length), { route, place, asset } = view.address;
return go({ route, stretch: end - start === length ? undefined : stretchBetween(view.route, start, end), place, asset }, isGesture);}
function aroundAsset(route, from, to, asset, length = Infinity) {const around = Math.max(Math.round((to - from) / 4), 5000), start = Math.max(from - around, 0), end = Math.min(to + around, length);
return { route, stretch: start === 0 && end === length ? undefined : stretchAt(start, end), asset };}
const MOST_VALUES = 40;const off = new Set();const whenSwitched = [];let classes = [], legendOf;async function loadClasses(route) {
const [lists, { lengths }] = await Promise.all([known("v1/classes"), known("v1/lengths", [["route", route]])]);if (legendOf === lengths) return;legendOf = lengths;classes = lists.classes.map(entry => entry.class);
$("classes").replaceChildren(...lists.classes.map(({ class: name, kind }) => classItem(name, kind, lengths.filter(entry => entry.class === name))));hideClasses();}
function classItem(name, kind, values) {const item = make("div", "", { className: "class" }), label = make("label"), list = make("ul", "", { className: "values" });
const box = make("input", "", { type: "checkbox", checked: !off.has(name), value: name });box.onchange = () => switchClasses([name], box.checked);label.append(box, name);
list.append(...values.slice(0, MOST_VALUES).map(entry => valueItem(name, kind, entry)));if (values.length > MOST_VALUES) list.append(make("li", `and ${values.length - MOST_VALUES} more`));item.append(label, list);return item;}
function valueItem(name, kind, { value, length }) {const item = make("li");if (kind !== "point") item.append(make("span", "", { className: `swatch ${shadeOf(name, value)}` }));
item.append(`${value}: `, kind === "point" ? counted(length, "place") : `${metres(length)} m`);return item;}
function switchClasses(names, on) {for (const name of names) on ? off.delete(name) : off.add(name);for (const box of $("classes").querySelectorAll("input")) box.checked = !off.has(box.value);hideClasses();
for (const listener of whenSwitched) listener();}
const switchAll = on => switchClasses(classes, on);function hideClasses() {for (const group of $("diagram").querySelectorAll("g[data-class]")) group.style.display = off.has(group.dataset.class) ? "none" : "";if (!view.route) return;
const on = classes.filter(name => !off.has(name)), chosen = on.length < classes.length ? on.map(name => ["class", name]) : [];$("plain").href = "v1/diagram" + query([["route", view.route.name], ...rangeOf(view), ...chosen]);}
function rangeOf({ route, from, to }) {return from === 0 && to === route.length ? [] : [["from", from], ["to", to]];}
const COLUMNS = { class: "Class", value: "Value", side: "Side", from_measure: "From measure", to_measure: "To measure", from: "From, m", to: "To, m", asset: "Asset", offset: "Offset, mm", entry: "Edit" };const HISTORY = "History";
const SAVED = ["route", "from", "to", "from_measure", "to_measure", "side", "asset", "class", "value", "offset", "entry"];const sorted = { by: "from", down: false }, listed = {};let table, rows = [], chosen = [];const sorterOf = name => {
const head = make("th", "", { scope: "col" }), button = make("button", COLUMNS[name], { type: "button", className: "plain", value: name });button.onclick = () => sortBy(name);head.append(button);return head;};async function loadRows() {
const { route, from, to } = view;table ||= new LongTable($("rows"), [...Object.keys(COLUMNS).map(sorterOf), ...headsOf([HISTORY])], assetRow);const all = await rowsOf(view);
if (view.route !== route || view.from !== from || view.to !== to) return;const name = `${from} ${to}`;if (listed.all === all && listed.name === name) return table.show(chosen);Object.assign(listed, { all, name });
rows = all.filter(row => row.from < to && row.to > from);listRows();}
function rowsOf({ route, from, to }) {return known("v1/rows", [["route", route.name]])
.catch(error => (rangeOf({ route, from, to }).length ? known("v1/rows", [["route", route.name], ["from", from], ["to", to]]) : Promise.reject(error)))
.then(found => found.rows);}
function keyOf(row, name) {const key = row[name], [n, d = 1] = name.endsWith("measure") ? key.split("/").map(Number) : [Number(key)];return Number.isNaN(n) ? key : n / d;}
function compared(a, b) {if (typeof a === typeof b) return a < b ? -1 : Number(a > b);return typeof a === "number" ? -1 : 1;}
function sortBy(name) {Object.assign(sorted, { down: sorted.by === name && !sorted.down, by: name });listRows();}
function matches(row, words) {const text = `${row.class} ${row.value} ${row.asset} ${SIDES[row.side]}`.toLowerCase();return words.every(word => text.includes(word));}
function listRows() {const words = $("row-filter").value.toLowerCase().split(/\s+/).filter(Boolean), sign = sorted.down ? -1 : 1;
const keyed = rows.filter(row => !off.has(row.class) && matches(row, words)).map(row => [keyOf(row, sorted.by), row]);chosen = keyed.sort(([a, x], [b, y]) => sign * compared(a, b) || x.from - y.from).map(([, row]) => row);
for (const button of table.head.querySelectorAll("button")) {const way = button.value === sorted.by ? (sorted.down ? "descending" : "ascending") : "none";button.parentNode.setAttribute("aria-sort", way);}
table.show(chosen);say("rows-said", `${chosen.length} of ${counted(rows.length, "row")} of this stretch.`);}
function assetRow(row) {const { route, address } = view, link = linkTo(writeAddress(aroundAsset(route.name, row.from, row.to, row.asset, route.length)), row.asset);
if (address.asset === String(row.asset)) link.setAttribute("aria-current", "true");
const made = rowOf([row.class, row.value, SIDES[row.side], short(row.from_measure), short(row.to_measure), metres(row.from), metres(row.to), link, row.offset, linkToEdit(row.entry), linkToAsset(row.asset, HISTORY)]);
for (const at of [3, 4, 5, 6, 7, 9]) made.cells[at].className = "number";return made;}
function saveRows() {const lines = chosen.map(row => SAVED.map(name => row[`${name}_decimal`] ?? row[name]).join(","));$("csv").download = `${view.route.name}.csv`;offer($("csv"), [[SAVED.join(","), ...lines, ""].join("\n")], "text/csv");}
whenSwitched.push(() => table && listRows());
const MOST_REFERENTS = 4;let asks = 0;const markAll = () => drawMarks([...view.asset, ...view.place]);function clearPlace() {asks++;view.place = [];
leaving(["hits", "ways"], "at-title", () => ($("hits").replaceChildren(), $("ways").replaceChildren()));tellPlace("");}
function tellPlace(text, isBad = false) {say("at-said", text, isBad);blame($("pos"), isBad, "at-said");}
async function askPlace(place) {clearPlace();const mine = asks, { route } = view;tellPlace("The position is being asked.");try {const found = await whatLies(route, place);if (mine === asks) showPlace(found, place);} catch (error) {
if (mine !== asks) return;putPlace(place);tellPlace(error.message, true);}
}
function putPlace({ method, pos }) {$("method").value = method;$("pos").value = pos;delete $("pos").dataset.chainage;}
function showPlace(found, place) {const { route } = view, way = found.dir === "+" ? "along the link" : "against the link", few = found.hits.length ? "" : " No asset lies there.";
const measure = short(found.positions.find(position => position.method === "abs").pos);tellPlace(`${found.route}: measure ${measure}, chainage ${metres(found.at)} m. Link ${found.link}, mm ${found.mm}; the route runs ${way}.${few}`);
if (found.hits.length) $("hits").append(tableOf(["Asset", "Class", "Value", "Side", "Offset, mm", "Edit", "Link", "mm"], found.hits.map(hit => hitRow(hit, found))));
$("ways").append(make("h3", "The same millimetre begins at"), waysOf(found, route));place.method === "chainage" ? fill($("pos"), route, $("method").value, found.at) : putPlace(place);
view.place = [{ from: found.at, to: found.at + 1, text: "asked" }];markAll();}
function hitRow(hit, found) {const link = linkTo(writeAddress({ ...view.address, asset: hit.asset }), hit.asset);link.title = "Mark this asset";
return rowOf([link, hit.class, hit.value, SIDES[hit.side] || hit.side, hit.offset, linkToEdit(hit.entry), found.link, found.mm]);}
function waysOf({ at, link, mm, positions }, { name }) {const list = make("ul", "", { className: "ways" }), distance = ({ pos }) => Number(/\d+$/.exec(pos)[0]);
const [measures, referents, others] = ["abs", "rel", "int"].map(method => positions.filter(position => position.method === method));referents.sort((a, b) => distance(a) - distance(b));
for (const { method, pos } of [...measures, ...referents.slice(0, MOST_REFERENTS), placeAt(at), ...others]) {const item = make("li", `${METHODS[method]}: `), canBeAsked = method !== "abs" || !pos.includes("/");
item.append(canBeAsked ? linkTo(writeAddress({ route: name, place: { method, pos } }), pos) : `${pos} (${short(pos)})`);list.append(item);}
list.append(make("li", `on link ${link}: ${mm} mm`));return list;}
function askTyped() {const place = said($("pos"), $("method").value);return place ? go({ ...view.address, place }) : tellPlace("Type a position.", true);}
const askChainage = mm => go({ ...view.address, place: placeAt(mm) });async function askClick(event) {const x = shownDiagram() ? unitsAt(event) : 0;if (x < 950 || x > 11050) return;
const clicked = Math.floor(chainageAt(x)), tick = event.target.closest("g[data-kind=point] .t path"), point = tick && pointNear(tick, x);
return askChainage((point && (await placeOfPoint(point, clicked))) ?? Math.min(Math.max(clicked, seen.from), seen.to - 1));}
async function placeOfPoint({ asset }, clicked) {const { rows } = await known("v1/find", [["asset", asset]]);const near = rows.filter(row => row.route === view.route.name).map(row => row.from);
return near.sort((a, b) => Math.abs(a - clicked) - Math.abs(b - clicked))[0];}
const PARTS = ["view", "asked", "listed"], ENDS = { from: "From", to: "To" }, DRAWN = / data-from='(\d+)' data-to='(\d+)'/;let shown = 0;async function showRoute(address) {const isNew = !view.route || view.route.name !== address.route;
$("route-title").textContent = document.title = `Route ${address.route}`;say("route-said", "The diagram is being drawn.");if (isNew) leaveRoute();const mine = ++shown;try {if (isNew) await askHealth();
const drawing = await drawingOf(address);if (mine === shown) putRoute(address, drawing, isNew);} catch (error) {if (mine !== shown) return;leaving(PARTS, "route-title", leaveRoute);say("route-said", error.message, true);}
}
function leaveRoute() {shown++;Object.assign(view, { route: null, address: {}, asset: [] });clearPlace();$("pos").value = "";for (const id of PARTS) $(id).hidden = true;}
async function drawingOf({ route: name, stretch }) {const route = await known(`v1/route/${name}`), picture = pictureFor(route, stretch);rowsOf({ route, from: 0, to: route.length }).catch(() => {});try {return { route, ...(await picture) };
} catch (refusal) {if (!refusal.end) throw refusal;return { route, ...(await pictureFor(route)), refusal };}
}
async function pictureFor(route, stretch = {}) {const ends = Object.keys(ENDS).filter(end => stretch[end]);try {
const pairs = ends.map(end => [end, textOfPlace(stretch[end], route, end)]), text = await known("v1/diagram", [["route", route.name], ...pairs], get);const [, from, to] = DRAWN.exec(text) || [];
return { text, from: Number(from), to: Number(to) };} catch (error) {const end = ends.find(name => error.cause?.endsWith(`:${name}`));if (end) throw Object.assign(new Error(whyNot(ENDS[end], error, stretch[end], route)), { end });
throw error.cause === "OffRoute" ? Object.assign(new Error("From must lie before To."), { end: ends.at(-1) }) : error;}
}
function putRoute(address, { route, from, to, text, refusal }, isNew) {const before = view.address;putDiagram(text);Object.assign(view, { route, address, from, to });for (const id of PARTS) $(id).hidden = false;tellStretch(refusal);
fillEnds(refusal);hideClasses();markAll();attempt("classes-said", () => loadClasses(route.name));attempt("rows-said", loadRows);attempt("route-said", () => markAsset(address.asset));
if (address.asset && address.asset !== before.asset) $("diagram").scrollIntoView({ block: "nearest" });if (!address.place) clearPlace(), markAll();
else if (isNew || JSON.stringify(before.place) !== JSON.stringify(address.place)) askPlace(address.place);}
function tellStretch(refusal) {const { route, from, to, address: { stretch } } = view;const measures = ["from", "to"].map(end => (!refusal && stretch?.[end]?.method === "abs" ? stretch[end].pos : textOf(route, "abs", view[end])));
const told = `Measures ${measures[0]} to ${measures[1]}: from ${metres(from)} m to ${metres(to)} m of ${metres(route.length)} m.`;say("route-said", refusal ? `The whole route is shown. ${told}` : told);tellEnds(refusal);}
function tellEnds(refusal) {say("ends-said", refusal ? refusal.message : "", Boolean(refusal));for (const end of Object.keys(ENDS)) blame($(end), refusal?.end === end, "ends-said");}
function fillEnds(refusal) {const { stretch = {} } = view.address, methods = [refusal?.end, "from", "to"].map(end => stretch[end]?.method);
$("by").value = methods.find(method => method && (refusal || method !== "chainage")) || $("by").value;for (const end of Object.keys(ENDS)) {fill($(end), view.route, $("by").value, view[end]);
if (stretch[end]?.method !== $("by").value) continue;$(end).value = stretch[end].pos;delete $(end).dataset.chainage;}
}
function changeMethod(select, fields) {tellEnds();for (const field of fields) {const { chainage } = field.dataset, at = chainage === undefined ? view[field.id] ?? view.place[0]?.from : Number(chainage);
if (at !== undefined) fill(field, view.route, select.value, at);}
}
async function showTyped() {const { route, address } = view, [from, to] = Object.keys(ENDS).map(end => said($(end), $("by").value) || undefined), stretch = { from, to };tellEnds();try {
const found = await pictureFor(route, stretch), isWhole = found.from === 0 && found.to === route.length;if (view.route === route) await go({ ...address, stretch: isWhole ? undefined : stretch });} catch (refusal) {
if (!refusal.end) throw refusal;tellEnds(refusal);$(refusal.end).focus();}
}
async function markAsset(asset) {view.asset = [];if (asset) {const { route } = view, { rows } = await known("v1/find", [["asset", asset]]);if (view.route !== route) return;
view.asset = rows.filter(row => row.route === route.name).map(({ from, to }) => ({ from, to, text: `asset ${asset}` }));}
markAll();}
const PART = ["Link", "From, mm", "To, mm", "Side of the link"];const PLACES = ["Route", "Side", "From measure", "To measure", "From, m", "To, m", "Offset, mm"];let taken, past, turn = 0;
const partOf = ({ link, from, to, side }) => [link, from, to, SIDES[side]];const takenRow = part => rowOf([part.reason, linkToAsset(part.asset), part.class, part.value, ...partOf(part)]);
const pastRow = part => rowOf([part.event, linkToEdit(part.edit), part.key, part.verb, ...partOf(part)]);function clear(parts, tables) {const mine = ++turn;for (const id of parts) $(id).replaceChildren();
for (const table of tables) table.show([]);return (id, asking, showing) => {if (mine === turn) say(`${id}-said`, "It is being asked.");
return asking.then(found => mine === turn && showing(found)).catch(error => mine === turn && say(`${id}-said`, error.message, true));};}
async function showEdit({ edit }) {taken ||= new LongTable($("taken"), headsOf(["Why", "Asset", "Class", "Value", ...PART]), takenRow);const shows = clear(["record", "beside"], [taken]);
$("edit-title").textContent = document.title = `Edit ${edit}`;const edits = await askHealth();return Promise.all([
shows("edit", Promise.all([recordAt(edit), routeNames()]), found => showRecord(Number(edit), edits, ...found)),shows("taken", known("v1/gone", [["edit", edit]]), ({ gone }) => {taken.show(gone);
say("taken-said", gone.length ? `${counted(gone.length, "part")}.` : "It took nothing away.");}),]);}
function showRecord(edit, edits, record, names) {say("edit-said", edits ? `Of ${counted(edits, "edit")}.` : "");$("record").replaceChildren(recordTable(record, names));
if (edit > 1) $("beside").append(linkToEdit(edit - 1, `Edit ${edit - 1}`));if (edit < edits) $("beside").append(linkToEdit(edit + 1, `Edit ${edit + 1}`));}
async function showAsset({ asset }) {past ||= new LongTable($("past"), headsOf(["What", "Edit", "Key", "Verb", ...PART]), pastRow);const shows = clear(["lies", "entered"], [past]);
$("asset-title").textContent = document.title = `Asset ${asset}`;await askHealth();const rows = known("v1/rows", [["asset", asset]]), events = known("v1/history", [["asset", asset]]);return Promise.all([
shows("asset", Promise.all([rows, known("v1/routes")]), ([found, { routes }]) => showPlaces(found.rows, new Map(routes.map(route => [route.name, route.length])))),
shows("entered", Promise.all([events.then(found => entryOf(found.history)), routeNames()]), ([found, names]) => showEntry(found, names)),shows("past", events, found => showPast(found.history)),]);}
function showPlaces(rows, lengths) {const [row] = rows, holds = rows.length === 1 ? "one stretch" : `${rows.length} stretches`;say("asset-said", row ? `${row.class} ${row.value}. It holds ${holds} today.` : "It lies on no route today.");
if (row) $("lies").replaceChildren(tableOf(PLACES, rows.map(found => heldRow(found, lengths.get(found.route)))));}
function heldRow({ route, from, to, from_measure: start, to_measure: end, side, asset, offset }, length) {const link = linkTo(writeAddress(aroundAsset(route, from, to, asset, length)), route);
const row = rowOf([link, SIDES[side], short(start), short(end), metres(from), metres(to), offset]);for (const cell of [...row.cells].slice(2)) cell.className = "number";return row;}
async function entryOf([first]) {return { edit: first.edit, record: await recordAt(first.edit) };}
function showEntry({ edit, record }, names) {say("entered-said", "");$("entered").replaceChildren(recordTable(record, names, edit));}
function showPast(parts) {const gone = parts.filter(part => part.event !== "entered").length;past.show(parts);say("past-said", `${counted(parts.length - gone, "part")} entered, ${gone} taken away since.`);}
const MOST_FOUND = 200;const upper = text => text.toUpperCase();const KINDS = { asset: findAsset, value: findValue, class: findClass, key: findKey, ref: findRef, route: findRoute };function search() {
const kind = $("kind").value, text = $("wanted").value.trim();$("found").hidden = false;$("results").replaceChildren();say("find-said", "It is being sought.");return attempt("find-said", async () => {
const edits = await askHealth(), { told, found = [], itemOf } = await KINDS[kind](text, edits);$("results").replaceChildren(...found.slice(0, MOST_FOUND).map(entry => itemOf(entry)));
say("find-said", found.length > MOST_FOUND ? `${told} The first ${MOST_FOUND} are shown.` : told);});}
function item(...parts) {const made = make("li");made.append(...parts);return made;}
function stretchItem({ route, from, to, from_measure: start, to_measure: end, side, asset, class: name, value }, length) {
const link = linkTo(writeAddress(aroundAsset(route, from, to, asset, length)), `${route}: measures ${short(start)} to ${short(end)}`);
return item(link, ` (${metres(from)} to ${metres(to)} m), ${SIDES[side]}: ${name} ${value}, `, linkToAsset(asset, `asset ${asset}`));}
async function stretches(told, found) {const { routes } = await known("v1/routes"), lengths = new Map(routes.map(route => [route.name, route.length]));return { told, found, itemOf: row => stretchItem(row, lengths.get(row.route)) };}
async function findAsset(text) {const { rows } = await known("v1/rows", [["asset", text]]);if (rows.length) return stretches(`Asset ${text} holds ${rows.length === 1 ? "one stretch" : `${rows.length} stretches`}.`, rows);
return { told: `Asset ${text} is known, and lies on no route now.`, found: [text], itemOf: asset => item(linkToAsset(asset, `The history of asset ${asset}`)) };}
async function findClass(text) {const { rows } = await known("v1/rows", [["class", upper(text)]]);return stretches(`${upper(text)} has ${counted(rows.length, "row")}.`, rows);}
async function findValue(text) {const { lengths } = await known("v1/lengths"), names = lengths.filter(entry => entry.value === text).map(entry => entry.class);
const lists = await Promise.all(names.map(name => known("v1/rows", [["class", name]])));const rows = lists.flatMap(list => list.rows).filter(row => row.value === text);
return stretches(rows.length ? `${counted(rows.length, "row")} ${rows.length === 1 ? "has" : "have"} the value ${text}.` : `No row has the value ${text}.`, rows);}
async function findKey(text, edits) {const [{ edit, record, within }, names] = await Promise.all([findEdit(edits, key => key === text), routeNames()]);if (!edit) return { told: `No edit has the key ${text}${within}.` };
return { told: `Key ${text} is edit ${edit}.`, found: [edit], itemOf: () => item(linkToEdit(edit, `Edit ${edit}`), `: ${record.verb} `, fieldsOf(record, names)) };}
async function findRef(text) {const { refs } = await known("v1/refs"), found = refs.filter(entry => entry.ref.includes(upper(text)));
const link = ({ ref, route }) => linkTo(writeAddress({ route, place: { method: "rel", pos: `${ref}+0` } }), ref);const itemOf = entry => item(link(entry), ` on ${entry.route}, at ${metres(entry.chainage)} m`);
return { told: `${counted(found.length, "referent")} of this name or part of a name.`, found, itemOf };}
async function findRoute(text) {const { routes } = await known("v1/routes"), found = routes.filter(route => route.name.includes(upper(text)));
return { told: `${counted(found.length, "route")} of this name or part of a name.`, found, itemOf: ({ name, length }) => item(linkTo(name, name), ` ${metres(length)} m`) };}
const MOST_ADVICE = 20, MOST_NAMES = 10;const MOST_LINES = 500, MOST_BYTES = 1000000, FIRST_RECORDS = 20, MOST_SHOWN = 4000;const PATHS = {"key,verb,a,b,c,d,e,f,g,h,i": ["v1/edits", "an edit sheet"],
"key,asset,class,route,side,method,from,to,value,offset": ["v1/surveys", "a survey"],};function* recordEnds(bytes) {let quoted = false, fresh = true;for (let at = 0; at < bytes.length; at++) {
const byte = bytes[at], ends = !quoted && (byte === 10 || (byte === 13 && bytes[at + 1] !== 10));if (byte === 34 && (quoted || fresh)) quoted = !quoted, fresh = !quoted;else fresh = !quoted && (byte === 44 || byte === 13 || byte === 10);
if (ends) yield at + 1;}
yield bytes.length;}
function bodiesOf(bytes) {if (bytes.length <= MOST_BYTES) return [bytes];let start = null, last = null, head = null;const bodies = [], body = () => bodies.push(new Blob([head, bytes.subarray(start, last)]));
for (const end of recordEnds(bytes)) {if (head === null) head = bytes.subarray(0, end), start = end;else if (end - start + head.length > MOST_BYTES && last > start) body(), start = last;last = end;}
if (last > start) body();return bodies;}
function recordsIn(bytes) {let count = -1, start = 0, shown = 0;for (const end of recordEnds(bytes)) {if (bytes.subarray(start, end).some(byte => byte !== 10 && byte !== 13)) count++;if (count < FIRST_RECORDS) shown = end;start = end;}
return { count: Math.max(count, 0), first: new TextDecoder().decode(bytes.subarray(0, Math.min(shown, MOST_SHOWN))) };}
function kindOf(bytes, name) {const first = new TextDecoder().decode(bytes.subarray(0, 200)).split(/[\r\n]/)[0].replace(/["\s]/g, "");if (PATHS[first]) return PATHS[first];
throw new Error(`${name} is no edit sheet and no survey: its first line is not the header of either. Nothing was sent.`);}
async function trialOf(path, body) {const settings = { method: "POST", headers: { "Content-Type": "text/csv" }, body };const { status, text } = await send(`${path}/check`, settings).catch(() => ({}));
return status === 200 || status === 422 ? JSON.parse(text) : undefined;}
function named(word, names) {if (!names.length) return [];const more = names.length > MOST_NAMES ? ` and ${names.length - MOST_NAMES} more` : "";return [`${word} ${names.slice(0, MOST_NAMES).join(", ")}${more}`];}
function changesOf(lines) {const fields = lines.map(line => line.split(",")), those = (sign, kind) => fields.filter(line => line[0] === sign && line[1] === kind);
const names = (sign, kind) => [...new Set(those(sign, kind).map(line => line[2]))], both = kind => [...new Set([...names("-", kind), ...names("+", kind)])];const lengthOf = line => (line[8] - line[7]) * (line[9] === "B" ? 2 : 1);
const moved = (sign, word, way) => {const count = names(sign, "holds").length, sum = those(sign, "holds").reduce((length, line) => length + lengthOf(line), 0);
return count ? [`${word} ${metres(sum)} m of sides ${way} ${counted(count, "asset")}`] : [];};return [
...moved("-", "takes", "from"), ...moved("+", "gives", "to"), ...named("enters asset", names("+", "asset")),
...named("removes referent", names("-", "ref")), ...named("sets referent", names("+", "ref")), ...named("changes route", both("route")),...named("adds link", names("+", "link")), ...named("adds class", names("+", "class")),].join("; ");}
function adviceOf({ advice }) {if (!advice.length) return [];const list = make("ul");list.append(...advice.slice(0, MOST_ADVICE).map(line => make("li", line.text ?? line)));return [list];}
function shownTrial(trial) {const { fault, replies, difference } = trial, changes = changesOf(difference);
const count = word => `${replies.filter(line => line.split(",")[1] === word).length} ${word}`, counts = ["done", "again", "refused"].map(count).join(", ");
const shown = [make("p", `It would be: ${counts}${fault ? `, and then ${sentence(fault)}` : ""}.`, { className: "trial" }), ...adviceOf(trial)];
shown.push(make("p", changes ? `It ${changes}.` : "It changes nothing of the network or its assets.", { className: "changes" }));if (difference.length) {
const rest = difference.length > MOST_LINES ? `\n${difference.length - MOST_LINES} lines more are not shown here: check --diff prints them.` : "", name = `What changes, in ${counted(difference.length, "line")}`;
const details = make("details", "", { ariaLabel: name });details.append(make("summary", name), make("pre", difference.slice(0, MOST_LINES).join("\n") + rest, { tabIndex: 0 }));shown.push(details);}
return shown;}
let ready = [], looks = 0, stopped;async function lookAt(files) {const mine = ++looks, sheets = [], shown = [];ready = [];$("preview").hidden = true;$("looked").replaceChildren();say("sheet-said", "");for (const file of files) {
const bytes = new Uint8Array(await file.arrayBuffer()), [path, kind] = kindOf(bytes, file.name), { count, first } = recordsIn(bytes);
const bodies = bodiesOf(bytes), parts = bodies.length > 1 ? `, in ${bodies.length} parts, so not all or nothing` : "";sheets.push({ name: file.name, path, bodies, at: 0, resumes: false });
shown.push(make("p", `${file.name}: ${kind} of ${counted(count, "record")}, ${bytes.length} bytes${parts}. It begins:`), make("pre", first, { tabIndex: 0 }));const trial = bodies.length > 1 ? undefined : await trialOf(path, bodies[0]);
if (trial) shown.push(...shownTrial(trial));}
if (mine !== looks) return;ready = sheets;$("looked").replaceChildren(...shown);$("preview").hidden = !ready.length;$("all-or-none").disabled = ready.some(({ bodies }) => bodies.length > 1);$("send").focus();}
function forget() {ready = [];$("preview").hidden = true;say("sheet-said", "Nothing was sent.");}
const counts = {};let replied = [], notShown = 0;function startReplies() {for (const word of ["done", "again", "refused", "fault"]) counts[word] = 0;(replied = []), (notShown = 0), (stopped = undefined);
$("lines").replaceChildren(tableOf(["Key", "Reply", "Edit, or cause"], []));$("replies").hidden = false;$("lines").hidden = $("save").hidden = $("resume").hidden = true;$("advice").replaceChildren();say("counts", "");}
function showReplies(text, isDone = true) {replied.push(text);const body = $("lines").querySelector("tbody"), rows = [];for (const line of text.split("\n")) {const [key, word, more] = line.split(",");if (!word) continue;counts[word]++;
if (body.rows.length + rows.length < MOST_LINES * (word === "done" || word === "again" ? 1 : 2)) rows.push(replyRow(key, word, more, isDone));else notShown++;}
body.append(...rows);$("lines").hidden = !body.rows.length;const faults = counts.fault ? ", 1 fault" : "", rest = notShown ? ` ${notShown} lines more are not shown here: save them to see all.` : "";
say("counts", `${isDone ? "" : "Nothing was done. It would have been: "}${counts.done} done, ${counts.again} again, ${counts.refused} refused${faults}.${rest}`);offer($("save"), replied, "text/csv");}
function replyRow(key, word, more, isDone) {const wouldBe = word === "done" && !isDone;const row = rowOf([key, wouldBe ? "would be done" : word, word === "done" || word === "again" ? `edit ${more}` : sentence(more)]);
row.className = wouldBe ? "" : word;row.cells[1].className = "word";return row;}
async function sendParts(sheet, refresh) {const { name, bodies, isWhole } = sheet, ending = isWhole ? "Nothing of it was refused." : "Look at the lines: a record that is refused changes nothing.";stopped = undefined;
leaving(["resume"], "file", () => ($("resume").hidden = true));try {for (; sheet.at < bodies.length; sheet.at++, sheet.resumes = false) {say("sheet-said", `${name}: part ${sheet.at + 1} of ${bodies.length} is being sent.`);
await sendPart(sheet, bodies[sheet.at]);}
say("sheet-said", `${name} was sent to its end, in ${bodies.length === 1 ? "one part" : `${bodies.length} parts`}. ${ending}`);} catch (error) {
if (error.message.endsWith(GO_ON)) (stopped = { ...sheet, resumes: true }), ($("resume").hidden = false);throw error;} finally {await refresh();}
}
async function sendPart({ path, isWhole, resumes }, body) {const settings = { method: "POST", headers: { "Content-Type": "text/csv" }, body }, way = isWhole ? "?all=1" : resumes ? "?resume=1" : "";
const { status, text } = await send(path + way, settings).catch(error => { throw new Error(error.message + GO_ON); });if (status === 200 || status === 409 || status === 422) showReplies(text, status === 200 || !isWhole);
if (isWhole && (status === 409 || status === 422)) return tellNothing(path, body, status);
if (status === 422) throw new Error(`${STATUSES[422]} The last line says why. The records before it are done. Mend the sheet, and send the header and the records behind the last one that was done.`);
if (status !== 200) throw new Error(reason(status, text) + ([500, 502, 503, 504].includes(status) ? GO_ON : " The sheet was not sent on."));}
async function tellNothing(path, body, status) {const trial = await trialOf(path, body);if (trial) $("advice").replaceChildren(...adviceOf(trial));
throw new Error(`Nothing was done. ${status === 409 ? "Not all of the sheet would be done: mend what is refused, or send it without all or nothing." : `${STATUSES[422]} The last line says why.`}`);}
async function sendEach(named, refresh) {for (const [at, sheet] of named.entries()) {startReplies();await sendParts(sheet, refresh).catch(error => {const rest = named.slice(at + 1).map(({ name }) => name).join(", ");
throw new Error(rest ? `${error.message} Not sent: ${rest}.` : error.message);});}
}
let sheets = Promise.resolve(), waiting = 0;function enqueue(work) {waiting++;sheets = sheets.then(() => attempt("sheet-said", work)).then(() => waiting--);}
function sendReady(refresh) {const isWhole = $("all-or-none").checked && !$("all-or-none").disabled, named = ready.map(sheet => ({ ...sheet, isWhole }));enqueue(() => sendEach(named, refresh));ready = [];$("preview").hidden = true;
$("sheet-said").scrollIntoView({ block: "nearest" });}
const goOn = refresh => enqueue(async () => stopped && sendParts(stopped, refresh));const isSending = () => waiting > 0;
const DRAFTS = {split: { route: "Route", place: "Place", new: "Name of the new route behind it" },
bypass: { route: "Route", from: "It leaves the old road at", to: "It comes back at", pieces: "New ground, as 2:0:2500000:+", old: "Name for the old road" },merge: { route: "Routes, as A1 A2 A3, in their order" },
retire: { asset: "Number of the asset" },replace: { asset: "Number of the asset", number: "Number of the new one", value: "Value of the new one" },
move: { asset: "Number of the asset", number: "Number of the new one", route: "Route", from: "Place, or where it begins", "to?": "Where it ends, if it is no point" },
undo: { "since?": "First edit to undo, if not the last alone", "number?": "Number for assets that come back, if there are any" },};const CALLED = { edit: "since", place: "from" };
const fieldsSaid = () => [...$("drafting").querySelectorAll("input")];function fieldOf([name, text]) {const label = make("label", `${text} `), isOptional = name.endsWith("?");
label.append(make("input", "", { name: name.replace("?", ""), className: "short", required: !isOptional }));return label;}
function showFields() {$("fields").replaceChildren(...Object.entries(DRAFTS[$("draft").value]).map(fieldOf));say("draft-said", "");}
function pairsOf(kind, fields) {const pairs = fields.map(({ name, value }) => [name, value.trim()]).filter(([, value]) => value), isPoint = !pairs.some(([name]) => name === "to");
if (kind === "merge") return pairs.flatMap(([name, value]) => (name === "route" ? value.split(/\s+/) : [value]).map(word => [name, word]));
return kind === "move" && isPoint ? pairs.map(([name, value]) => [name === "from" ? "place" : name, value]) : pairs;}
async function sheetFor(kind, fields) {const settings = { method: "POST", headers: { "Content-Type": "text/csv" }, body: new URLSearchParams(pairsOf(kind, fields)) };const { status, text } = await send(`v1/draft/${kind}`, settings);
if (status === 200) return text;throw new Error(blamed(reason(status, text), fields));}
function blamed(told, fields) {const named = (shown, word) => {const name = word.toLowerCase(), field = fields.find(each => each.name === name) || fields.find(each => each.name === CALLED[name]);if (!field) return shown;
blame(field, true, "draft-said");return `"${field.labels[0].textContent.trim()}"`;};const text = /^[A-Z]+ is /.test(told) ? told.replace(/(?<![:\w])([A-Z]+)(?![:\w])/g, named) : told;return text.replace(/--(number|key)( N)?/g, named);}
function draft() {const kind = $("draft").value, fields = fieldsSaid();for (const field of fields) blame(field, false);$("drafted").hidden = true;say("draft-said", "The sheet is being written.");return attempt("draft-said", async () => {
const text = await sheetFor(kind, fields);say("draft-said", "The sheet is written, and shown below. Nothing is done before you send it.");$("drafted").download = `${kind}.csv`;offer($("drafted"), [text], "text/csv");
$("sheets").open = $("all-or-none").checked = true;await lookAt([new File([text], `${kind}.csv`)]);});}
const PAUSE = 120, LEAST_DRAG = 4;let wanted = null, timer, drag = null, wasDragged = false, pinch = null;function zoom(times) {const middle = (seen.from + seen.to) / 2, half = ((seen.to - seen.from) * times) / 2;
return showRange(middle - half, middle + half);}
const move = times => showRange(seen.from + (seen.to - seen.from) * times, seen.to + (seen.to - seen.from) * times);function preview(from, to) {const svg = shownDiagram(), [start, end] = within(from, to, view.route.length);
wanted = [start, end];const times = (seen.to - seen.from) / (end - start), left = 1000 + ((seen.from - start) * 10000) / (end - start) - times * 1000;svg.style.transformOrigin = "0 0";
svg.style.transform = `translateX(${(left * svg.clientWidth) / 12000}px) scaleX(${times})`;$("diagram").classList.add("moving");}
async function settle() {if (!view.route) return;const [from, to] = wanted || [seen.from, seen.to];wanted = null;$("diagram").classList.remove("moving");
if (from === seen.from && to === seen.to) return void (shownDiagram().style.transform = "");await showRange(from, to, true);}
function settleSoon() {clearTimeout(timer);timer = setTimeout(settle, PAUSE);}
const share = event => {const box = $("diagram").getBoundingClientRect(), wide = shownDiagram().clientWidth;return (((event.clientX - box.left + $("diagram").scrollLeft) / wide) * 12000 - 1000) / 10000;};function wheel(event) {
if (!shownDiagram()) return;const [from, to] = wanted || [seen.from, seen.to], span = to - from, sideways = event.shiftKey || Math.abs(event.deltaX) > Math.abs(event.deltaY);
const by = (sideways ? event.deltaX || event.deltaY : event.deltaY) * (event.deltaMode ? 16 : 1);if (!sideways && by > 0 && span === view.route.length) return;event.preventDefault();
const at = from + span * Math.min(Math.max(share(event), 0), 1), times = Math.min(Math.max((event.ctrlKey ? 1.01 : 1.0015) ** by, 0.2), 5);
sideways ? preview(from + (span * by) / 1000, to + (span * by) / 1000) : preview(at - (at - from) * times, at + (to - at) * times);settleSoon();}
function startDrag(event) {wasDragged = false;if (event.pointerType === "touch" || event.button || !shownDiagram()?.contains(event.target)) return;drag = { x: event.clientX, moved: false, from: seen.from, to: seen.to };}
function dragOn(event) {if (!drag) return look(event);const by = event.clientX - drag.x;if (!drag.moved && Math.abs(by) < LEAST_DRAG) return;if (!drag.moved) $("diagram").setPointerCapture(event.pointerId);drag.moved = true;
const mm = (by * 12000 * (drag.to - drag.from)) / (shownDiagram().clientWidth * 10000);preview(drag.from - mm, drag.to - mm);}
function endDrag() {wasDragged = Boolean(drag?.moved);drag = null;if (wasDragged) settle();}
const click = event => wasDragged || !shownDiagram()?.contains(event.target) || attempt("at-said", () => askClick(event));function touch(event) {if (event.touches.length !== 2 || !shownDiagram()) return;event.preventDefault();
const shares = [...event.touches].map(share), [from, to] = [seen.from, seen.to];pinch ||= shares.map(at => from + at * (to - from));const span = (pinch[1] - pinch[0]) / (shares[1] - shares[0] || 0.01);
if (span > 0) preview(pinch[0] - shares[0] * span, pinch[0] + (1 - shares[0]) * span);}
function endTouch(event) {if (!pinch || event.touches.length === 2) return;pinch = null;settle();}
function look(event) {if (!shownDiagram()?.contains(event.target)) return;const x = unitsAt(event), chainage = Math.floor(chainageAt(x));if (chainage < 0 || x < 1000 || x > 11000 || chainage > view.route.length) return say("under", "");
say("under", [`measure ${textOf(view.route, "abs", chainage)}, ${metres(chainage)} m`, ...thingsAt(x, off)].join(" \u00b7 "));}
function press(event) {const button = { ArrowLeft: "back", ArrowRight: "on", "+": "in", "-": "out", Home: "whole" }[event.key];if (event.ctrlKey || event.altKey || event.metaKey) return;if (button) event.preventDefault(), $(button).click();
if (event.key === "Enter") askChainage(Math.floor((seen.from + seen.to) / 2));}
function watch() {const box = $("diagram");box.addEventListener("wheel", wheel, { passive: false });for (const name of ["touchstart", "touchmove"]) box.addEventListener(name, touch, { passive: false });
for (const name of ["touchend", "touchcancel"]) box.addEventListener(name, endTouch);Object.assign(box, { onpointerdown: startDrag, onpointermove: dragOn, onpointerup: endDrag, onpointercancel: endDrag, onclick: click, onkeydown: press });
$("in").onclick = () => zoom(0.5);$("out").onclick = () => zoom(2);$("back").onclick = () => move(-0.5);$("on").onclick = () => move(0.5);$("whole").onclick = () => showRange(0, view.route.length);}
let shownBefore;const SHOWN = { network: showNetwork, route: showRoute, edit: showEdit, asset: showAsset };const viewOf = address => ["route", "edit", "asset"].find(name => address?.[name]) || "network";function show(address) {
const name = viewOf(address), now = name === "edit" || name === "asset" ? `${name} ${address[name]}` : name;for (const other of Object.keys(SHOWN)) $(other).hidden = other !== name;
if (shownBefore && shownBefore !== now) $(`${name}-title`).focus({ preventScroll: true }), scrollTo(0, 0);shownBefore = now;if (name !== "route") leaveRoute();return SHOWN[name](address);}
function showNetwork(address) {document.title = "Road inventory";say("address-said", address ? "The address names no route." : "", Boolean(address));return loadNetwork();}
async function refresh() {await askHealth();await showAgain();}
const submits = (id, work) => ($(id).onsubmit = event => (event.preventDefault(), work()));submits("filtering", () => firstRoute()?.click());submits("finding", search);submits("range", () => attempt("route-said", showTyped));
submits("asking", askTyped);submits("row-filtering", () => {});submits("drafting", draft);$("draft").onchange = showFields;$("filter").oninput = listRoutes;$("row-filter").oninput = listRows;$("csv").onclick = saveRows;
$("by").onchange = () => changeMethod($("by"), [$("from"), $("to")]);$("method").onchange = () => changeMethod($("method"), [$("pos")]);for (const id of ["from", "to", "pos"]) $(id).oninput = () => delete $(id).dataset.chainage;
$("all").onclick = () => switchAll(true);$("none").onclick = () => switchAll(false);$("close").onclick = () => leaving(["found"], "wanted", () => ($("found").hidden = true));$("refresh").onclick = refresh;
$("skip").onclick = () => $("main").focus();$("send").onclick = () => leaving(["preview"], "file", () => sendReady(refresh));$("forget").onclick = () => leaving(["preview"], "file", forget);$("resume").onclick = () => goOn(refresh);
$("file").onchange = () => {const files = [...$("file").files];$("file").value = "";attempt("sheet-said", () => lookAt(files));};document.ondragover = event => {if (!event.dataTransfer.types.includes("Files")) return;event.preventDefault();
document.body.classList.add("over");};document.ondragleave = event => event.relatedTarget || document.body.classList.remove("over");document.ondrop = event => {const files = [...event.dataTransfer.files];if (!files.length) return;
event.preventDefault();document.body.classList.remove("over");$("sheets").open = true;attempt("sheet-said", () => lookAt(files));};window.onbeforeunload = event => void (isSending() && event.preventDefault());makeShades();showFields();
watch();start(show);
</script>
</body>
</html>
"##)
    };
}

pub(super) use page_back;
