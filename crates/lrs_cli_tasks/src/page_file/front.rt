//! The front of the web page, page/index.html: tools/embed.py writes this file.

macro_rules! page_front {
    ($back:ident) => {
        $back!(r##"<!doctype html>
<html lang="en">
<head>
<meta charset="utf-8">
<meta name="viewport" content="width=device-width, initial-scale=1">
<meta name="color-scheme" content="light dark">
<meta http-equiv="Content-Security-Policy" content="default-src 'none'; style-src 'unsafe-inline'; script-src 'sha256-5sGr5lNVwBtxI9cFvUnUpU/h+RiXdlQgylpDjb0L7d8='; img-src data:; connect-src 'self'; form-action 'none'; base-uri 'none'">
<title>Road inventory</title>
<link rel="icon" href="data:,">
<style>
:root{--text:#1a1a1a;--paper:#fff;--ground:#f3f4f6;--line:#7d8794;--field:#59626f;--press:#e8ecf2;--over:#d5dce6;--head:#1d3557;--link:#1d4f91;--focus:#b35900;--on-head:#ffb04d;--bar:#5b83b8;--post:#12263f;
--ink:#000;--sheet:#fff;--depth-0:58.5%;--depth-1:65%;--piece-0:#7b7b7b;--piece-1:#8d8d8d;--point:#b3540a;--mark:#8f1616;--bad:#7a1414;--bad-ground:#fdeaea;--good:#0b4d1a;--good-ground:#e3f4e6;--known:#173f85;--known-ground:#e6eefb;}
@media screen and (prefers-color-scheme:dark){:root{--text:#e8e8e8;--paper:#1b1f26;--ground:#101318;--line:#7b8594;--field:#9aa4b2;--press:#2c333e;--over:#3a4350;--head:#16283f;--link:#9cc4ff;--focus:#ffb04d;--bar:#5b83b8;--post:#fff;
--ink:#fff;--sheet:#000;--depth-0:50%;--depth-1:55%;--piece-0:#646464;--piece-1:#727272;--point:#f5a04a;--mark:#ff9c9c;--bad:#ffb3b3;--bad-ground:#401a1a;--good:#a8e6b4;--good-ground:#12331a;--known:#b3ccff;--known-ground:#16284a;}}
*{box-sizing:border-box;}[hidden]{display:none !important;}body{margin:0;font:16px/1.4 system-ui,"DejaVu Sans",sans-serif;color:var(--text);background:var(--ground);}
header{display:flex;flex-wrap:wrap;gap:.4rem 1.5rem;align-items:end;padding:.6rem 1rem;background:var(--head);color:#fff;}header p{margin:0 0 0 auto;}header .bad{color:var(--bad);}h1{margin:0 auto 0 0;font-size:1.2rem;}
h1 a{color:inherit;text-decoration:none;}h2{margin:0 0 .5rem;font-size:1.05rem;}h3{margin:.6rem 0 .2rem;font-size:1rem;}p{margin:0 0 .5rem;}a{color:var(--link);}main{display:grid;gap:.8rem;padding:.8rem;grid-template-columns:minmax(0,1fr);}
[tabindex="-1"]:focus{outline:none;}#network,#route,#edit,#asset{display:grid;gap:.8rem;grid-template-columns:minmax(0,1fr);}section,details{padding:.8rem;background:var(--paper);border:1px solid var(--line);border-radius:4px;min-width:0;}
summary{cursor:pointer;font-weight:bold;min-height:1.5rem;}form,.buttons{display:flex;flex-wrap:wrap;gap:.5rem;align-items:end;margin:0 0 .5rem;}form .buttons{margin:0;}label{display:inline-flex;flex-direction:column;font-size:.85rem;}
input,select,button{font:inherit;padding:.25rem .5rem;border:1px solid var(--field);border-radius:3px;background:var(--paper);color:var(--text);max-width:100%;min-height:1.9rem;}button{background:var(--press);cursor:pointer;}
button:hover{background:var(--over);}:focus-visible{outline:3px solid var(--focus);outline-offset:1px;}header :focus-visible,#skip{outline-color:var(--on-head);}#skip{position:absolute;left:-100rem;}
#skip:focus{left:.5rem;top:.5rem;z-index:2;}ul{list-style:none;margin:0;padding:0;}#results{max-height:15rem;overflow-y:auto;margin-bottom:.5rem;}li{padding:.1rem 0;}.note{font-size:.9rem;overflow-wrap:anywhere;}.note:empty{display:none;}
.bad{padding:.3rem .5rem;border:2px solid currentColor;background:var(--bad-ground);color:var(--bad);}.short{width:9rem;}[aria-invalid=true]{border:2px solid var(--bad);}
.table,.long{overflow:auto;max-height:24rem;border:1px solid var(--line);}.table{width:fit-content;max-width:100%;}.table:empty{border:0;}
.pair{display:flex;flex-wrap:wrap;gap:0 2rem;align-items:start;}.pair > *{min-width:0;}#ways h3{margin:0;}.long{scroll-padding:2.5rem 0 .5rem;}table{border-collapse:collapse;font-size:.95rem;}
th,td{padding:.2rem .6rem;border:1px solid var(--line);text-align:left;font-weight:inherit;}thead th{position:sticky;top:0;z-index:1;background:var(--press);font-weight:bold;}
.record th{text-transform:capitalize;vertical-align:top;}.record td{overflow-wrap:anywhere;}td.number{text-align:right;font-variant-numeric:tabular-nums;}.long table{width:100%;white-space:nowrap;}.long tbody tr{height:2rem;}
.long tbody tr:hover{background:var(--press);}#routes tbody tr{cursor:pointer;}.name{width:9rem;}.length{width:8rem;}td.bar{padding:0 .6rem 0 0;width:70%;}.track{position:relative;height:2rem;overflow:hidden;}
.track svg{display:block;height:45%;min-width:2px;background:var(--bar);}.track path{stroke:var(--post);stroke-width:1.5px;}.track span{position:absolute;bottom:0;font-size:.75rem;line-height:1.1rem;padding-left:1px;}
button.plain{border:0;padding:0;background:none;font-weight:bold;min-height:1.5rem;}th[aria-sort=ascending] button::after{content:" \25b2";}th[aria-sort=descending] button::after{content:" \25bc";}
#diagram{overflow-x:auto;border:1px solid var(--line);touch-action:pan-x pan-y;}#diagram text{fill:var(--ink);}#diagram path{stroke:var(--ink);}#diagram svg > rect{fill:var(--sheet);}#diagram .l{stroke:var(--line);}
#diagram [data-cut]{stroke:var(--ink);stroke-width:14;stroke-opacity:1;}#diagram .t path{stroke:var(--point);}#diagram .p path{stroke:var(--piece-0);}#diagram .p path:nth-of-type(even){stroke:var(--piece-1);}
#diagram [data-mark] rect{fill:none;stroke:var(--mark);}#diagram [data-mark] text{fill:var(--mark);stroke:var(--sheet);}#diagram.moving{overflow:hidden;}
#diagram svg{display:block;width:100%;min-width:900px;height:auto;cursor:crosshair;user-select:none;}.moving svg{cursor:grabbing;}#under{min-height:1.4em;font-size:.9rem;}
fieldset{margin:.5rem 0;padding:.3rem .6rem .5rem;border:1px solid var(--line);max-height:14rem;overflow-y:auto;}fieldset label,label.row{flex-direction:row;gap:.3rem;align-items:center;font-size:1rem;}
input[type=checkbox]{min-height:0;width:1.5rem;height:1.5rem;}.class{display:flex;flex-wrap:wrap;gap:.2rem 1rem;align-items:center;}.class label{min-width:8rem;}.values{display:flex;flex-wrap:wrap;gap:.1rem 1rem;font-size:.9rem;}
.swatch{display:inline-block;width:1.6rem;height:.9rem;margin-right:.3rem;vertical-align:middle;border:1px solid var(--field);}[aria-current=true]{font-weight:bold;}
pre{overflow:auto;max-height:10rem;padding:.4rem;border:1px solid var(--line);}tr.done td.word{background:var(--good-ground);color:var(--good);border-left:6px solid currentColor;}
tr.again td.word{background:var(--known-ground);color:var(--known);border-left:6px dashed currentColor;}tr.refused td.word,tr.fault td.word{background:var(--bad-ground);color:var(--bad);border-left:6px double currentColor;font-weight:bold;}
#drop{padding:.8rem;margin:.5rem 0;border:2px dashed var(--field);}.over #drop{border-style:solid;background:var(--press);}
@media (min-width:1100px){#network{grid-template-columns:minmax(0,1fr) minmax(0,1fr);}#network > :first-child{grid-column:1 / 3;}}@media (max-width:800px){main{padding:.5rem;}header p,h1{margin:0;}
.name,.length{width:4rem;}.long thead th{white-space:normal;}td.bar{width:50%;}}
@page{margin:12mm;}@page wide{size:landscape;}@media print{body,section{background:#fff;color:#000;border:0;padding:0;}body{font-size:11pt;}main{padding:0;}body:has(#route:not([hidden])){page:wide;}
header form,header button,form,.buttons,details,fieldset button,#skip,#under,.hands,.note > a,#found,input[type=checkbox]{display:none;}#asked:not(:has(#hits table,#ways ul)){display:none;}
header{background:none;color:#000;padding:0 0 .5rem;}a{color:inherit;text-decoration:none;}#network,#route,#edit,#asset,main{display:block;}section{margin:0 0 1rem;}h2,h3,.note,legend{break-after:avoid;}
.table,.long{overflow:visible;max-height:none;height:auto;border:0;}.long table{width:auto;}table{font-size:9pt;}th,td{padding:.1rem .4rem;border-color:#767676;}thead th{position:static;}thead button{display:contents;}
.long tbody tr{height:auto;}#rows :is(th,td):last-child{display:none;}#routes table{width:100%;}tr,#diagram,.class{break-inside:avoid;}#diagram{border:0;overflow:visible;}#diagram svg{min-width:0;print-color-adjust:exact;}
fieldset{max-height:none;overflow:visible;border:0;padding:0;}.swatch,.track svg{print-color-adjust:exact;}}
</style>
</head>
<body>
<button id="skip" type="button">To the content</button>
<header>
<h1><a href="#">Road inventory</a></h1>
<form id="finding" role="search" aria-label="Find">
<label>Find by <select id="kind"><option value="asset">number of an asset</option><option value="value">value</option><option value="class">class</option>
<option value="key">key of an edit</option><option value="ref">referent</option><option value="route">route</option></select></label>
<label>What is sought <input id="wanted" autocomplete="off" required></label> <button>Find</button></form>
<p><span id="health" role="status"></span> <button id="refresh" type="button">Ask again</button></p>
</header>
<main id="main" tabindex="-1">
<section id="found" aria-labelledby="found-title" hidden><h2 id="found-title">Found</h2>
<p id="find-said" class="note" role="status"></p>
<ul id="results"></ul>
<button id="close" type="button">Close</button>
</section>
<div id="network">
<section aria-labelledby="network-title"><h2 id="network-title" tabindex="-1">The network</h2>
<p id="address-said" class="note" role="status"></p>
<form id="filtering"><label>Part of a route's name <input id="filter" type="search" autocomplete="off"></label></form>
<p id="routes-said" class="note" role="status"></p>
<div id="routes" class="long" role="region" aria-label="Routes. The arrow keys go from row to row."></div>
</section>
<section aria-labelledby="totals-title"><h2 id="totals-title">Totals by class</h2>
<p id="totals-said" class="note" role="status"></p>
<div id="totals" class="table" tabindex="0" role="region" aria-labelledby="totals-title"></div>
</section>
<section aria-labelledby="edits-title"><h2 id="edits-title">The last edits</h2>
<p id="edits-said" class="note" role="status"></p>
<div id="edits" class="table" tabindex="0" role="region" aria-labelledby="edits-title"></div>
</section>
</div>
<div id="route" hidden>
<section aria-labelledby="route-title"><p class="note"><a href="#">&#8592; The network</a></p>
<h2 id="route-title" tabindex="-1">Route</h2>
<p id="route-said" class="note" role="status"></p>
<div id="view" hidden><form id="range">
<label>Said by <select id="by"><option value="abs">measure, as 3000</option><option value="rel">referent and mm, as KM2+500</option>
<option value="int">proportion, as 1/3</option><option value="chainage">chainage in metres</option></select></label>
<label>From <input id="from" class="short" autocomplete="off"></label>
<label>To <input id="to" class="short" autocomplete="off"></label>
<button>Show</button></form>
<p id="ends-said" class="note" role="status"></p>
<p class="buttons"><button type="button" id="in">Zoom in</button> <button type="button" id="out">Zoom out</button>
<button type="button" id="back">&#8592; Back</button> <button type="button" id="on">On &#8594;</button>
<button type="button" id="whole">Whole route</button> <a id="plain">Plain SVG of this diagram</a></p>
<div id="diagram" tabindex="0" role="group" aria-label="Diagram. The arrow keys move along the route, plus and minus zoom, Enter asks what lies in the middle."></div>
<p id="under" aria-live="off"></p>
<p class="note">Above the axis is the left side, below it the right side. A line parts neighbours of different values; 3&#215; are three points in one place.<span class="hands"> A wheel or two fingers zoom, a mouse drags, a click asks what lies there.</span></p>
<fieldset><legend>Classes and values</legend><button type="button" id="all">All</button><button type="button" id="none">None</button><div id="classes"></div></fieldset>
<p id="classes-said" class="note" role="status"></p></div>
</section>
<section id="asked" aria-labelledby="at-title" hidden><h2 id="at-title" tabindex="-1">What lies at a position</h2>
<form id="asking"><label>Said by <select id="method"><option value="abs">measure, as 3000</option><option value="rel">referent and mm, as KM2+500</option>
<option value="int">proportion, as 1/3</option><option value="chainage">chainage in metres</option></select></label>
<label>Position <input id="pos" class="short" autocomplete="off"></label> <button>Ask</button></form>
<p id="at-said" class="note" role="status"></p>
<div class="pair"><div id="hits" class="table"></div><div id="ways"></div></div>
</section>
<section id="listed" aria-labelledby="rows-title" hidden><h2 id="rows-title">Rows of this stretch</h2>
<form id="row-filtering"><label>Words in a row <input id="row-filter" type="search" autocomplete="off"></label> <a id="csv" href="#">Save as CSV</a></form>
<p id="rows-said" class="note" role="status"></p>
<div id="rows" class="long" role="region" aria-label="Rows. The arrow keys go from row to row."></div>
</section>
</div>
<div id="edit" hidden>
<section aria-labelledby="edit-title"><p class="note"><a href="#">&#8592; The network</a></p>
<h2 id="edit-title" tabindex="-1">Edit</h2>
<p id="edit-said" class="note" role="status"></p>
<div id="record" class="table" tabindex="0" role="region" aria-labelledby="edit-title"></div>
<p id="beside" class="buttons"></p>
</section>
<section aria-labelledby="taken-title"><h2 id="taken-title">What it retired or abandoned</h2>
<p id="taken-said" class="note" role="status"></p>
<div id="taken" class="long" role="region" aria-label="Parts. The arrow keys go from row to row."></div>
</section>
</div>
<div id="asset" hidden>
<section aria-labelledby="asset-title"><p class="note"><a href="#">&#8592; The network</a></p>
<h2 id="asset-title" tabindex="-1">Asset</h2>
<p id="asset-said" class="note" role="status"></p>
<div id="lies" class="table" tabindex="0" role="region" aria-labelledby="asset-title"></div>
</section>
<section aria-labelledby="entered-title"><h2 id="entered-title">The edit that entered it</h2>
<p id="entered-said" class="note" role="status"></p>
<div id="entered" class="table" tabindex="0" role="region" aria-labelledby="entered-title"></div>
</section>
<section aria-labelledby="past-title"><h2 id="past-title">What was entered of it, and taken away since</h2>
<p id="past-said" class="note" role="status"></p>
<div id="past" class="long" role="region" aria-label="Parts. The arrow keys go from row to row."></div>
</section>
</div>
<details id="drafts" aria-label="Write a sheet for me"><summary>Write a sheet for me</summary>
<p>Say what is wanted. The program writes the sheet that does it, tries it, and does nothing: you send the sheet below.</p>
<form id="drafting" autocomplete="off"><label>What is wanted <select id="draft"><option value="split">divide a route</option><option value="bypass">lead a route over new ground</option>
<option value="merge">join routes</option><option value="retire">take an asset away</option><option value="replace">replace an asset</option>
<option value="move">move an asset</option><option value="undo">undo the last edits</option></select></label>
<div id="fields" class="buttons" role="group" aria-label="What the sheet is for"></div>
<label>Keys begin with, if not with DRAFT- <input name="key" class="short"></label>
<button>Write the sheet</button></form>
<p id="draft-said" class="note" role="status"></p>
<p><a id="drafted" hidden>Save the sheet</a></p>
<p class="note">A place is a measure (abs:3000), millimetres from a referent (rel:KM2+500), a proportion (int:1/3), or millimetres from the start (3000). Pieces of links have a space between two: 2:0:2500000:+ is link 2 from 0 to 2500000 mm, and with - at its end against the link.</p>
</details>
<details id="sheets" aria-label="Send a sheet"><summary>Send a sheet</summary>
<div id="drop"><p>Drop an edit sheet or a survey on this page. You see what it has and what it would change before it is sent.</p>
<label>Or choose a file <input id="file" type="file" accept=".csv,text/csv,text/plain" multiple></label></div>
<div id="preview" hidden><div id="looked"></div>
<p><label class="row"><input id="all-or-none" type="checkbox"> All or nothing: if a record is refused, nothing is done</label></p>
<p><button id="send" type="button">Send</button> <button id="forget" type="button">Do not send</button></p></div>
<p id="sheet-said" class="note" role="status"></p>
<div id="replies" hidden>
<p id="counts" class="note" role="status"></p>
<p><button id="resume" type="button" hidden>Go on with the sheet</button> <a id="save" download="replies.csv" hidden>Save all reply lines</a></p>
<div id="advice"></div>
<div id="lines" class="table" tabindex="0" role="region" aria-label="Reply lines"></div></div>
</details>
</main>
<script>
"use strict";
const SVG = "http://www.w3.org/2000/svg";const SIDES = { L: "left", R: "right", B: "both" };const $ = id => document.getElementById(id);function make(tag, text = "", settings = {}) {
return Object.assign(document.createElement(tag), { textContent: text }, settings);}
function drawn(tag, settings, text = "") {const made = document.createElementNS(SVG, tag);for (const [name, value] of Object.entries(settings)) made.setAttribute(name, value);made.textContent = text;return made;}
function linkTo(address, text) {return make("a", text, { href: `#${address}` });}
function rowOf(cells) {const row = make("tr");for (const cell of cells) Object.assign(row.insertCell(), { className: typeof cell === "number" ? "number" : "" }).append(cell);return row;}
function tableOf(heads, rows) {const table = make("table"), top = table.createTHead().insertRow();for (const head of heads) top.append(make("th", head, { scope: "col" }));table.createTBody().append(...rows);return table;}
function say(id, text, isBad = false) {$(id).textContent = isBad ? `Error: ${text}` : text;$(id).classList.toggle("bad", isBad);}
function blame(field, isWrong, told) {field.setAttribute("aria-invalid", isWrong);isWrong ? field.setAttribute("aria-describedby", told) : field.removeAttribute("aria-describedby");}
function leaving(ids, next, work) {const wasThere = ids.some(id => $(id).contains(document.activeElement));work();if (wasThere) $(next).focus();}
const attempt = (id, work) => work().catch(error => say(id, error.message, true));function offer(link, parts, type) {URL.revokeObjectURL(link.href);
Object.assign(link, { hidden: false, href: URL.createObjectURL(new Blob(parts, { type })) });}
const CAUSES = {AssetKnown: "the number of the asset was used before", BadCsv: "a record has not as many fields as the header",BadHeader: "the first line is not the header of this kind of sheet",
BadMarks: "the marks must rise from the start of the route to its end, and mark % (the first is 0) does not fit",BadPiece: "piece % (the first is 0) does not lie within its link", ClassKnown: "there is a class of this name",
Empty: "nothing lies there, or the stretch has no length", KeyUsed: "edit % has this key, and is another command",LinkKnown: "there is a link of this number", Malformed: "% cannot be read, or a number in it is too large or too fine",
MeasureRange: "the measures would grow too large", NoAsset: "there is no asset of this number", NoClass: "there is no class of this name",
NoEdit: "there is no edit of this number", NoLink: "there is no link of this number", NoMark: "the route has no mark at this place",
NoRef: "the referent is not on this route", NoRoute: "there is no route of this name", NotExclusive: "the class is not exclusive",
NothingLeft: "nothing would be left of the route", OffRoute: "the position is not on the route", Overlap: "asset % of this class lies there",
RefKnown: "there is a referent of this name", RepeatedKey: "two records have one key, and nothing was done",RouteKnown: "there is a route of this name", SameRoute: "the two routes are one", SideB: "a single side is wanted",
Taken: "ground of piece % (the first is 0) is on a route, or twice on this one", TooFine: "the position is too fine: its denominator is too large",
TooLong: "the route would be too long", TooMany: "the inventory has as many % as it can have", WrongKind: "the class is of another kind",};const STATUSES = {
400: "The request could not be read.", 401: "You are not logged in.", 403: "You may not do this.",404: "There is nothing at this path: perhaps the program is older than this page.",409: "It cannot be done.",
413: "The sheet is too long, or has a part that cannot be cut. Nothing of this part was done.",415: "The web server takes no sheet of this type.", 422: "The sheet could not be read to its end.", 502: "The program does not run.",
503: "The program has too little memory, or could not write to its disk. If this comes again and again, the disk must be mended and the program started again.",504: "The program took too long to reply.",};
const LOST = "No reply came: the connection broke, or the web server does not run.";const GO_ON = " It is not known how far the sheet was done. Go on with it once the program runs: what was done is passed over, and nothing is done twice.";
function sentence(cause) {const [name, argument] = cause.split(":"), known = CAUSES[name];return known ? `${cause}: ${known.replace("%", () => argument)}` : cause;}
function faultOf(text) {try {const { error, why } = JSON.parse(text);return { error, why };} catch {return {};}
}
const causeOf = text => faultOf(text).error;function reason(status, text) {const { error, why } = faultOf(text);if (why) return `${why[0].toUpperCase()}${why.slice(1)}${/[.!?]$/.test(why) ? "" : "."}`;
return error ? `${sentence(error)}.` : `${STATUSES[status] || "The request failed."} (Status ${status}.)`;}
const MOST_KEPT = 100000000;const kept = new Map(), lengths = new WeakMap();let edits;const query = pairs => "?" + new URLSearchParams(pairs);async function send(path, settings) {try {
const reply = await fetch(path, { cache: "no-store", ...settings });return { status: reply.status, text: await reply.text() };} catch {throw new Error(LOST);}
}
async function get(path, pairs = []) {const { status, text } = await send(pairs.length ? path + query(pairs) : path);if (status !== 200) throw new Error(reason(status, text), { cause: causeOf(text) });return text;}
async function answer(path, pairs) {const text = await get(path, pairs), value = JSON.parse(text);lengths.set(value, text.length);return value;}
async function firstLines(path, pairs) {const reply = await fetch(path + query(pairs), { cache: "no-store" }).catch(() => { throw new Error(LOST); });if (reply.status !== 200) throw new Error(reason(reply.status, await reply.text()));
const reader = reply.body.pipeThrough(new TextDecoderStream()).getReader(), ends = /^.*\n.*\n/;let text = "";for (let piece = await reader.read(); !piece.done && !ends.test((text += piece.value)); ) piece = await reader.read();
reader.cancel();return ends.exec(text)?.[0] ?? text;}
function known(path, pairs = [], asking = answer) {const name = `${asking.name} ${path}${query(pairs)}`, entry = kept.get(name) || { found: asking(path, pairs), length: 0 };kept.delete(name);kept.set(name, entry);entry.found.then(
value => (entry.length = lengths.get(value) ?? value.length, forgetOldest()),() => kept.get(name) === entry && kept.delete(name),);return entry.found;}
function forgetOldest() {let length = 0;for (const entry of kept.values()) length += entry.length;for (const [name, entry] of kept) if (length > MOST_KEPT) kept.delete(name), (length -= entry.length);}
async function renew() {const health = await answer("health").catch(error => ({ error }));if (health.error || health.edits !== edits) kept.clear();edits = health.edits;if (health.error) throw health.error;return edits;}
const metres = mm => `${Math.floor(mm / 1000)}.${String(mm % 1000).padStart(3, "0")}`;function millimetres(text) {const parts = /^(\d{1,9})(?:\.(\d{0,3}))?$/.exec(text.trim());
return parts && Number(parts[1]) * 1000 + Number((parts[2] || "").padEnd(3, "0"));}
function chainageOf(marks, measure, isEnd) {const [whole, rest] = measure.split("."), n = BigInt(whole + rest), d = 10n ** BigInt(rest.length);
const behind = Math.max(marks.findIndex(([, high]) => n <= BigInt(high) * d), 1), [[start, low], [end, high]] = [marks[behind - 1], marks[behind]];const over = (n - BigInt(low) * d) * BigInt(end - start), span = BigInt(high - low) * d;
return over < 0n || n > BigInt(high) * d ? null : start + Number(isEnd ? nearest([over, span]) : over / span);}
const nearest = ([n, d]) => (2n * n + d) / (2n * d);function measureAt(marks, chainage) {const behind = Math.max(marks.findIndex(([at]) => at >= chainage), 1);const [[start, low], [end, high]] = [marks[behind - 1], marks[behind]];
return [BigInt(low) * BigInt(end - start) + BigInt(chainage - start) * BigInt(high - low), BigInt(end - start)];}
function decimal([n, d]) {const thousandths = (n * 1000n) / d, rest = String(thousandths % 1000n).padStart(3, "0");return n % d ? `${thousandths / 1000n}.${rest}` : String(n / d);}
function proportionOf(mm, length) {let [a, b] = [mm, length];while (b) [a, b] = [b, a % b];return `${mm / a}/${length / a}`;}
function short(measure) {const [n, d] = measure.split("/");return d ? `\u2248 ${(Number(n) / Number(d)).toFixed(3)}` : n;}
const counted = (count, one, more = `${one}s`) => `${count} ${count === 1 ? one : more}`;
async function askHealth() {try {const edits = await renew();say("health", `${counted(edits, "edit")}. The program answers.`);return edits;} catch (error) {return void say("health", error.message, true);}
}
const METHODS = { abs: "measure", rel: "from a referent", int: "proportion", chainage: "chainage, in metres" };const ROUTE = /^[A-Z0-9][A-Z0-9-]{0,11}$/, PLACE = /^(?:(abs|rel|int|chainage|asset):)?(.*)$/s;function readAddress(text) {
if (text.startsWith("route=")) return readOlder(new URLSearchParams(text));const [, kind, number] = /^(edit|asset)\/(\d{1,13})$/.exec(text) || [];if (kind) return { [kind]: number };
const [route, ...parts] = decoded(text).split(/\/(?=(?:abs|rel|int|chainage|asset):|\.\.)/);const address = { route: ROUTE.test(route) ? route : undefined };for (const part of parts) Object.assign(address, readPart(part));
return route ? address : null;}
function readPart(part) {const [[, method = "abs", start], [, endMethod = method, end] = []] = part.split("..").map(text => PLACE.exec(text));if (method === "asset") return { asset: start };
return end === undefined ? { place: { method, pos: start } } : { stretch: { from: readEnd(method, start), to: readEnd(endMethod, end) } };}
const readEnd = (method, pos) => (pos ? { method, pos } : undefined);function decoded(text) {try {return decodeURIComponent(text);} catch {return text;}
}
function readOlder(pairs) {const [from, to] = ["from", "to"].map(name => (/^\d+$/.test(pairs.get(name)) ? metres(Number(pairs.get(name))) : ""));
return { route: pairs.get("route"), ...((from || to) && { stretch: { from: readEnd("chainage", from), to: readEnd("chainage", to) } }) };}
function writeAddress({ route, stretch, place, asset, edit }) {if (!route) return edit ? `edit/${edit}` : `asset/${asset}`;let text = route;if (stretch) text += `/${written(stretch.from)}..${written(stretch.to)}`;
if (place) text += `/${written(place)}`;return asset ? `${text}/asset:${asset}` : text;}
const written = place => (place ? `${place.method}:${place.pos}` : "");const placeAt = mm => ({ method: "chainage", pos: metres(mm) });const stretchAt = (from, to) => ({ from: placeAt(from), to: placeAt(to) });
const MOST_SEARCHED = 100000;const ENTERED = ["asset", "class", "route", "side", "method", "from", "to", "value", "offset"];const VERBS = {
link: ["makes a link", "link", "length"], class: ["makes a class", "class", "kind"], route: ["makes a route", "route", "pieces", "marks"],
ref: ["names a place on a route", "referent", "route", "method", "position"], unref: ["removes a referent", "referent"],
enter: ["enters an asset", ...ENTERED], retire: ["takes an asset away over a stretch", "asset", "route", "method", "from", "to"],supersede: ["enters an asset, and retires what lay there of its class", ...ENTERED],
split: ["divides a route", "route", "chainage", "new route"], renumber: ["gives a route another name", "route", "new route"],
recalibrate: ["gives a route new marks", "route", "marks"], join: ["appends a second route to a first one", "first", "second"],
turn: ["reverses a route", "route"], realign: ["replaces a stretch of a route", "route", "from", "to", "pieces", "marks"], close: ["ends a route", "route"],};
const NAMES_ROUTE = /^(route|new route|first|second)$/, MILLIMETRES = /^(length|chainage)$/;const linkToEdit = (edit, text = edit) => linkTo(writeAddress({ edit }), text);
const linkToAsset = (asset, text = asset) => linkTo(writeAddress({ asset }), text);function recordsOf(log) {return log.split("\n").slice(1).filter(Boolean).map(recordOf);}
function recordOf(line) {const [key, verb, ...fields] = line.split(",");return { key, verb, fields };}
async function recordAt(edit) {const [record] = recordsOf(await known("v1/log", [["from", edit]], firstLines));if (!record) throw new Error(`${sentence("NoEdit")}.`);return record;}
async function findEdit(edits, passes) {const first = Math.max(edits - MOST_SEARCHED + 1, 1);const lines = edits ? (await known("v1/log", [["from", first]], get)).split("\n").slice(1) : [];for (let at = lines.length - 1; at >= 0; at--)
if (passes(...lines[at].split(",", 3))) return { edit: first + at, record: recordOf(lines[at]) };return { edit: 0, within: first > 1 ? `, of the last ${MOST_SEARCHED}` : "" };}
async function routeNames() {const { routes } = await known("v1/routes");return new Set(routes.map(route => route.name));}
function fieldsOf({ verb, fields }, names) {const part = make("span");fields.forEach((field, at) => field && part.append(linked(VERBS[verb]?.[at + 1], field, names), " "));return part;}
function linked(name, field, names) {if (name === "asset") return linkToAsset(field);return NAMES_ROUTE.test(name) && names.has(field) ? linkTo(field, field) : field;}
function recordTable({ key, verb, fields }, names, edit) {const table = make("table", "", { className: "record" }), [does, ...heads] = VERBS[verb] || [""];
const pairs = [["edit", edit && linkToEdit(edit)], ["key", key], ["verb", does ? `${verb}: ${does}` : verb], ...fields.map((field, at) => [heads[at] ?? "", inWords(verb, heads[at], field, names)])];
table.createTBody().append(...pairs.filter(([, field]) => field).map(pairRow));return table;}
function pairRow([name, field]) {const row = rowOf(["", field]);row.cells[0].replaceWith(make("th", name, { scope: "row" }));return row;}
function inWords(verb, name, field, names) {if (!field) return "";if (name === "side") return SIDES[field];if (name === "method") return METHODS[field];if (name === "offset") return `${field} mm`;
if (MILLIMETRES.test(name) || (verb === "realign" && /^(from|to)$/.test(name))) return `${metres(Number(field))} m`;return linked(name, field, names);}
const SPARE = 10, MOST_PRINTED = 2000;const tables = [];let isPrinting = false;const headsOf = (names, widths = []) => names.map((name, at) => make("th", name, { scope: "col", className: widths[at] || "" }));class LongTable {
constructor(box, heads, makeRow) {Object.assign(this, { box, makeRow, items: [], rows: new Map(), height: 30, stop: 0 });this.table = make("table");this.head = this.table.createTHead().insertRow();this.head.append(...heads);
this.above = this.table.createTBody();this.body = this.table.createTBody();this.below = this.table.createTBody();box.replaceChildren(this.table);box.tabIndex = -1;box.onscroll = () => this.draw();
box.addEventListener("keydown", event => this.step(event));this.body.addEventListener("focusin", event => this.stopAt(Number(event.target.closest("tr").ariaRowIndex) - 2));new ResizeObserver(() => this.draw()).observe(box);
tables.push(this);}
show(items) {const at = this.body.contains(document.activeElement) && document.activeElement.href, top = items === this.items ? this.box.scrollTop : 0;if (items !== this.items) this.stop = 0;this.items = items;this.rows.clear();
this.body.replaceChildren();this.box.scrollTop = top;this.table.setAttribute("aria-rowcount", items.length + 1);this.draw();
if (at) ([...this.body.querySelectorAll("a")].find(link => link.href === at) || this.box).focus({ preventScroll: true });}
draw() {this.width = this.box.clientWidth;if (!this.width) return;const first = isPrinting ? 0 : Math.max(Math.floor(this.box.scrollTop / this.height) - SPARE, 0);
const last = Math.min(isPrinting ? MOST_PRINTED : first + Math.ceil(this.box.clientHeight / this.height) + 2 * SPARE, this.items.length);
for (const [at, row] of this.rows) if ((at < first || at >= last) && !row.contains(document.activeElement)) this.rows.delete(at), row.remove();let behind = null;for (let at = last - 1; at >= first; at--) {
const row = this.rows.get(at) || this.makeAt(at);if (row.nextSibling !== behind || !row.isConnected) this.body.insertBefore(row, behind);behind = row;}
if (!this.rows.has(this.stop)) this.stopAt(Math.min(first + (first && SPARE), last - 1));this.measure();this.spread(this.above, first);this.spread(this.below, this.items.length - last, isPrinting);}
makeAt(at) {const row = this.makeRow(this.items[at]);row.setAttribute("aria-rowindex", at + 2);this.rows.set(at, row);this.reach(at, at === this.stop);return row;}
stopAt(at) {this.reach(this.stop, false);this.stop = at;this.reach(at, true);}
reach(at, can) {for (const link of this.rows.get(at)?.querySelectorAll("a") || []) link.tabIndex = can ? 0 : -1;}
measure() {const row = this.body.rows[0];if (row && row.offsetHeight) this.height = row.offsetHeight;}
spread(part, count, isTold = false) {if (!count) return part.replaceChildren();const row = part.rows[0] || part.appendChild(rowOf([""])), cell = row.cells[0];row.setAttribute("aria-hidden", "true");cell.colSpan = this.head.cells.length;
cell.textContent = isTold ? `${count} more, which are not printed` : "";cell.style.cssText = isTold ? "" : `height: ${count * this.height}px; padding: 0; border: 0`;}
step(event) {const by = { ArrowDown: 1, ArrowUp: -1 }[event.key], row = event.target.closest("tr");if (!by || row?.parentNode !== this.body) return;event.preventDefault();
const next = by > 0 ? row.nextSibling : row.previousSibling, column = [...row.querySelectorAll("a")].indexOf(event.target);next?.querySelectorAll("a")[column]?.focus();}
}
function prints(now) {isPrinting = now;for (const table of tables) table.draw();}
window.onbeforeprint = () => prints(true);window.onafterprint = () => prints(false);
const LAST_EDITS = 10, LEAST_GAP = 8, LETTER = 9;const network = { routes: [], longest: 1, posts: new Map(), edits: undefined };let bars, drawnFor = {};async function loadNetwork() {
bars ||= new LongTable($("routes"), headsOf(["Route", "Length, m", "Posts, to one scale"], ["name", "length", "bar"]), routeRow);network.edits = await askHealth();
await Promise.all([attempt("routes-said", loadRoutes), attempt("totals-said", loadTotals), attempt("edits-said", loadEdits)]);}
function isNew(name, value) {const before = drawnFor[name];drawnFor[name] = value;return before !== value;}
async function loadRoutes() {const lists = await Promise.all(["routes", "marks", "refs"].map(name => known(`v1/${name}`)));if (!isNew("routes", lists[0]) && !isNew("refs", lists[2])) return;network.routes = lists[0].routes;
network.longest = network.routes.reduce((most, route) => Math.max(most, route.length), 1);network.posts = postsOf(lists[1].marks, lists[2].refs);listRoutes();}
function postsOf(marks, refs) {const posts = new Map();for (const { route, chainage, ref } of refs) (posts.get(route) || posts.set(route, []).get(route)).push([chainage, ref]);const named = new Set(posts.keys());
for (const { route, chainage, measure } of marks)
if (!named.has(route)) (posts.get(route) || posts.set(route, []).get(route)).push([chainage, String(measure)]);for (const list of posts.values()) list.sort(([a], [b]) => a - b);return posts;}
function listRoutes() {const part = $("filter").value.trim().toUpperCase(), found = network.routes.filter(route => route.name.includes(part));bars.show(found);
const scale = found.length ? ` The longest has ${metres(network.longest)} m.` : "";say("routes-said", `${found.length} of ${counted(network.routes.length, "route")}.${scale}`);}
function routeRow({ name, length }) {const row = rowOf(["", metres(length), barOf(name, length)]), head = make("th", "", { scope: "row" });head.append(linkTo(name, name));row.cells[0].replaceWith(head);row.cells[1].className = "number";
row.cells[2].className = "bar";row.onclick = event => event.target.closest("a") || !getSelection().isCollapsed || (location.hash = name);return row;}
function barOf(name, length) {const track = make("div", "", { className: "track" }), posts = network.posts.get(name) || [];const share = length / network.longest, whole = bars.width * 0.65, wide = whole * share;
const bar = drawn("svg", { viewBox: `0 0 ${length} 1`, preserveAspectRatio: "none", "aria-hidden": "true" });bar.append(drawn("path", { d: posts.map(([at]) => `M${at} 0v1`).join("") || "M0 0v1", "vector-effect": "non-scaling-stroke" }));
bar.style.width = `${share * 100}%`;track.append(bar);let free = 0;for (const [at, text] of posts) {const place = (at / length) * share, long = text.length * LETTER, left = Math.min((at / length) * wide, whole - long);
if (left < free) continue;const label = make("span", text);label.style.left = `min(${place * 100}%, 100% - ${long}px)`;track.append(label);free = left + long + LEAST_GAP;}
return track;}
async function loadTotals() {const [{ classes }, { totals }] = await Promise.all([known("v1/classes"), known("v1/totals")]);if (!isNew("totals", totals)) return;const kinds = new Map(classes.map(({ class: name, kind }) => [name, kind]));
const amount = (kind, mm) => (kind === "point" ? String(mm) : `${metres(mm)} m`);const rows = totals.map(total => {const kind = kinds.get(total.class);
return [total.class, kind, ...["present", "entered", "retired", "abandoned"].map(word => amount(kind, total[word]))];});
$("totals").replaceChildren(tableOf(["Class", "Kind", "Present", "Entered", "Retired", "Abandoned"], rows.map(numbersBehind(2))));
say("totals-said", totals.length ? "Both sides are added; of points they are counted." : "There is no class yet.");}
const numbersBehind = count => cells => {const row = rowOf(cells);for (const cell of [...row.cells].slice(count)) cell.className = "number";return row;};async function loadEdits() {
if (!network.edits) return say("edits-said", "There is no edit yet."), $("edits").replaceChildren();
const first = Math.max(network.edits - LAST_EDITS + 1, 1), [log, names] = await Promise.all([known("v1/log", [["from", first]], get), routeNames()]);if (!isNew("edits", log)) return;
const rows = recordsOf(log).map((record, at) => rowOf([linkToEdit(first + at), record.key, record.verb, fieldsOf(record, names)]));$("edits").replaceChildren(tableOf(["Edit", "Key", "Verb", "Fields"], rows.reverse()));say("edits-said", "");
}
const firstRoute = () => $("routes").querySelector("tbody a");
const LEAST_MEASURES = 200, MOST_NAMED = 12;const WRITTEN = {abs: "a measure, as 3000", rel: "a referent and millimetres from it, as KM2+500", int: "a proportion from 0/1 to 1/1, as 1/3",
chainage: "metres with at most three decimals, as 12.5",};function textOfPlace({ method, pos }, { marks, length }, end = "") {
if (method === "abs" && /^\d{1,15}\.\d{0,9}$/.test(pos)) return String(chainageOf(marks, pos, Boolean(end)) ?? refuse("OffRoute", end));if (method !== "chainage") return `${method}:${pos}`;
const mm = millimetres(pos) ?? refuse("Malformed", end);return mm > length ? refuse("OffRoute", end) : String(mm);}
function refuse(name, end) {const cause = `${name}:${end}`;throw new Error(cause, { cause });}
function whyNot(name, error, { method }, { marks, length, refs }) {const [cause] = (error.cause || "").split(":"), names = refs.slice(0, MOST_NAMED).map(ref => ref.name).join(", ");
if (cause === "OffRoute") return `${name} lies off the route, ${method === "abs" ? `whose measures are ${marks[0][1]} to ${marks.at(-1)[1]}` : `which is ${metres(length)} m long`}.`;
if (cause === "NoRef") return `${name} is said from a referent that is not on the route. ${names ? `It has ${names}` : "It has none"}.`;if (cause === "Malformed") return `${name} cannot be read. Write ${WRITTEN[method]}.`;
return cause === "TooFine" ? `${name} is too fine to be found. Say it by fewer digits.` : error.message;}
async function whatLies(route, place) {try {return await known("v1/where", [["route", route.name], ["chainage", textOfPlace(place, route)]]);} catch (error) {throw new Error(whyNot("The position", error, place, route));}
}
function stretchBetween({ marks }, from, to) {const [low, high] = [from, to].map(at => nearest(measureAt(marks, at)));
return high - low < LEAST_MEASURES ? stretchAt(from, to) : { from: { method: "abs", pos: String(low) }, to: { method: "abs", pos: String(high) } };}
function textOf({ length, marks, refs }, method, chainage) {if (method === "abs") return decimal(measureAt(marks, chainage));if (method === "int") return proportionOf(chainage, length);if (method === "chainage") return metres(chainage);
const near = refs.reduce((best, ref) => (best && Math.abs(best.at - chainage) <= Math.abs(ref.at - chainage) ? best : ref), undefined);return near ? `${near.name}${near.at <= chainage ? "+" : "-"}${Math.abs(chainage - near.at)}` : "";}
function fill(field, route, method, chainage) {field.value = textOf(route, method, chainage);field.dataset.chainage = chainage;}
function said(field, method) {const pos = field.value.trim(), { chainage } = field.dataset;const isWhole = chainage === undefined || (method === "rel" && pos) || (method === "abs" && !pos.includes("."));
return isWhole ? pos && { method, pos } : placeAt(Number(chainage));}
const SHAPES = /^(svg|title|style|g|path|rect|text)$/, LOOKS = /^(class|d|fill|height|role|text-anchor|transform|viewBox|width|x|y|data-[a-z]+)$/;const HARMLESS_STYLE = /^(?!.*url)[-\s\w#.,:;{}()]*$/i;const LOOK = / ([\w-]+)='([^']*)'/g;
function pictureOf(text) {const part = /<(\/?)([a-z]+)((?: [\w-]+='[^'<>&]*')*)(\/?)>|([^<>&]+)/y;let root = null, inside = null;while (part.lastIndex < text.length) {
const [found, closes, name, looks, isEmpty, words] = part.exec(text) || [];if (words) addWords(inside, words);else if (closes) inside = inside?.localName === name ? inside.parentNode : refusePicture();else {
if (!found || !SHAPES.test(name) || (root && !inside)) refusePicture();const made = withLooks(document.createElementNS(SVG, name), looks);root ? inside.append(made) : (root = made);if (!isEmpty) inside = made;}
}
return root?.localName === "svg" && !inside ? root : refusePicture();}
function addWords(inside, words) {if (!words.trim()) return;if (!inside || (inside.localName === "style" && !HARMLESS_STYLE.test(words))) refusePicture();inside.append(words);}
function withLooks(made, looks) {for (const [, name, value] of looks.matchAll(LOOK)) {if (name === "xmlns" && value === SVG) continue;if (!LOOKS.test(name)) refusePicture();made.setAttribute(name, value);}
return made;}
function refusePicture() {throw new Error("The diagram cannot be read.");}
const SHADES = 24;const classShades = new Map();const shade = at => `oklch(var(--depth-${at % 2}) 0.09 ${Math.round(255 + at * 137.5) % 360})`;function shadeOf(name, value) {
const values = classShades.get(name) || classShades.set(name, new Map()).get(name);if (!values.has(value)) values.set(value, values.size % SHADES);return `shade-${values.get(value)}`;}
function makeShades() {const sheet = new CSSStyleSheet();for (let at = 0; at < SHADES; at++) sheet.insertRule(`#route .shade-${at} { stroke: ${shade(at)}; stroke-opacity: 1; background: ${shade(at)}; }`);
document.adoptedStyleSheets = [sheet];}
const NEAR = 60, MOST_UNDER = 12, MOST_SINGLE = 1000, WIDE_COUNT = 250, LEAST_PARTED = 60;const ROW = /^<path d='(M(\d+) -?\d+(?:h(\d+)|v\d+))'><title>(\d+): ([\w.-]+)<\/title><\/path>$/;
const CLASS = /^<g data-class='(?<class>\w+)' data-kind='(?<kind>\w+)'>$/, SIDE = /^<text x='40' y='\d+'>\w+ (?<side>[LR])<\/text>$/;const seen = { from: 0, to: 0, things: [] };let put;
const shownDiagram = () => $("diagram").querySelector("svg");const across = chainage => 1000 + ((chainage - seen.from) * 10000) / (seen.to - seen.from);const chainageAt = x => seen.from + ((x - 1000) * (seen.to - seen.from)) / 10000;
function putDiagram(text) {if (text === put && shownDiagram()) return void (shownDiagram().style.transform = "");const [shown, things] = shaded(text), svg = pictureOf(shown);
Object.assign(seen, { from: Number(svg.dataset.from), to: Number(svg.dataset.to), things });$("diagram").replaceChildren(svg);put = text;}
function shaded(text) {const things = [], lines = [], line = {}, isMany = text.split("<title>").length > MOST_SINGLE;let run = [];for (const part of text.split("\n")) {const [row, d, x, wide, asset, value] = ROW.exec(part) || [];if (row) {
run.push({ d, x: Number(x), end: Number(x) + Number(wide || 0), asset, value, ...line });continue;}
for (const thing of run) things.push(thing);lines.push(...shapesOf(run, isMany), part);run = [];Object.assign(line, CLASS.exec(part)?.groups, SIDE.exec(part)?.groups);}
return [lines.join("\n"), things];}
function shapesOf(run, isMany) {const isPoints = run[0]?.kind === "point", joined = new Map(), besides = isPoints ? countsOf(run) : cutsOf(run);
const looks = run.map(({ class: name, value, side }) => (isPoints ? `data-side='${side}'` : `class='${shadeOf(name, value)}'`));
if (!isMany) return run.map(({ d, asset, value }, at) => `<path ${looks[at]} d='${d}'><title>${asset}: ${value}<\/title><\/path>`).concat(besides);
run.forEach(({ d }, at) => (joined.get(looks[at]) || joined.set(looks[at], new Set()).get(looks[at])).add(d));return [...joined].map(([look, parts]) => `<path ${look} d='${[...parts].join("")}'/>`).concat(besides);}
"##)
    };
}

pub(super) use page_front;
