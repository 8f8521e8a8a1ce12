//! The page's own text. `page/join.py` writes it, and the gate compares.

/// The page up to the plain report.
pub(crate) const HEAD: &str = r#"<!doctype html>
<html lang="en">
<head>
<meta charset="utf-8">
<meta name="viewport" content="width=device-width, initial-scale=1">
<meta http-equiv="Content-Security-Policy" content="default-src 'none'; base-uri 'none'; form-action 'none'; style-src 'sha256-RRKDnOJEN3UXGbdSgSBWYlc7XLf9ur8OocGqJLuILps='; script-src 'sha256-+BMVY9MXSGey6IgHVHvgfwCaG8IxZdysN/OW1YlZJBU='">
<title>A day of quotes</title>
<style id="style">
/* picture: what the saved SVG has too */
:root {
  --paper: #fff; --ink: #1b1f24; --soft: #59636e; --hair: #d9dee3; --panel: #f5f7f9; --spread: #7a8b9a22;
  --bid: #0072b2; --offer: #c65102; --locked: #e0a800; --crossed: #86256a; --one: #9aa4ae; --pick: #ffd54a66;
  --none: #111; --sweep: #1d9c77; --flicker: #8a6d00; --help: #4b5fc9; --claim: #2b7fb0; --clean: #7d8790;
}
@media screen and (prefers-color-scheme: dark) {
  :root {
    --paper: #14181c; --ink: #e6e9ec; --soft: #9aa5b0; --hair: #2e353c; --panel: #1c2228; --spread: #aebccb1c;
    --bid: #56b4e9; --offer: #f0915a; --locked: #f0c33c; --crossed: #d071aa; --one: #65707a; --pick: #ffd54a44;
    --none: #fff; --sweep: #3fd0a4; --flicker: #e8d44d; --help: #a9b5ff; --claim: #7cc7f2; --clean: #808b96;
  }
}
svg text { font: 11px system-ui, sans-serif; fill: var(--soft); font-variant-numeric: tabular-nums; }
svg text.tag { fill: var(--paper); }
svg text.say { fill: var(--ink); paint-order: stroke; stroke: var(--paper); stroke-width: 4px; stroke-linejoin: round; }
.paper { fill: var(--paper); }
.grid { stroke: var(--hair); fill: none; shape-rendering: crispEdges; }
.spread { fill: var(--spread); }
.line { fill: none; stroke-width: 1.6; stroke-linejoin: round; }
.bid { stroke: var(--bid); }
.offer { stroke: var(--offer); }
.small { stroke-width: 1; stroke-opacity: .75; }
.own { stroke-width: 1.1; stroke-dasharray: 4 2; }
/* Where both lines share a pixel, their mixture shows that both are there. */
#best-bid, #best-offer { mix-blend-mode: multiply; }
@media screen and (prefers-color-scheme: dark) { #best-bid, #best-offer { mix-blend-mode: screen; } }
.bids { fill: var(--bid); opacity: .5; }
.offers { fill: var(--offer); opacity: .5; }
.faint { opacity: .2; }
.tint.locked { fill: var(--locked); opacity: .16; }
.tint.crossed { fill: var(--crossed); opacity: .16; }
.strip.locked { fill: url(#p-locked); }
.strip.crossed { fill: url(#p-crossed); }
.strip.one { fill: url(#p-one); }
.share.locked, .of-locked { fill: var(--locked); }
.share.crossed, .of-crossed { fill: var(--crossed); }
.of-one { stroke: var(--one); }
.dark-hatch { stroke: #000; stroke-opacity: .55; }
.light-hatch { stroke: #fff; stroke-opacity: .6; }
.mark { fill: none; stroke: var(--group); stroke-width: 1.7; }
.perhaps { stroke-dasharray: 3 2; }
.clean { --group: var(--clean); stroke-width: 1.2; }
.g0 { --group: var(--none); stroke-width: 2.4; }
.g1 { --group: var(--sweep); }
.g2 { --group: var(--crossed); }
.g3 { --group: var(--flicker); }
.g4 { --group: var(--help); }
.g5 { --group: var(--claim); }
.tally { stroke: none; fill: var(--group); }
.ring { fill: var(--pick); stroke: var(--ink); }
.plan { stroke: var(--ink); fill: none; }
.dotted { stroke-dasharray: 1 3; }
.dashed { stroke-dasharray: 7 4; }
.lot { stroke: var(--soft); stroke-dasharray: 5 3; fill: none; }
.leg { fill: var(--ink); stroke: var(--paper); }
.over { fill: var(--paper); stroke: var(--ink); stroke-width: 2; }
.far { fill: var(--soft); }
.cross { stroke: var(--soft); stroke-dasharray: 2 3; fill: none; pointer-events: none; }
.tagbox { fill: var(--ink); stroke: none; }
.tagbox.bid { fill: var(--bid); }
.tagbox.offer { fill: var(--offer); }
.shade { fill: var(--ink); opacity: .1; }
.hold { fill: var(--bid); fill-opacity: .13; stroke: var(--bid); }
.chosen { fill: var(--bid); opacity: .18; }
/* end of picture */

:root { color-scheme: light dark; }
* { box-sizing: border-box; }
[hidden] { display: none !important; }
body {
  margin: 0; padding: 1rem clamp(.6rem, 2vw, 2rem) 2rem; background: var(--paper); color: var(--ink);
  font: 15px/1.45 system-ui, sans-serif;
}
h1 { font-size: 1.35rem; margin: 0; }
h2 { font-size: 1rem; margin: 0 0 .4rem; }
#about, figcaption p { color: var(--soft); margin: .15rem 0 .5rem; font-size: .85rem; }
#damaged { border-left: 4px solid var(--crossed); padding: .4rem .8rem; background: var(--panel); }
/* Seen only if the script has not taken it away by then. */
#damaged { animation: late 0s 9s both; }
#damaged.now { animation: none; }
@keyframes late { from { visibility: hidden; position: absolute; } }
@media (scripting: none) { #damaged { display: none; } }
.bar { display: flex; flex-wrap: wrap; gap: .4rem .8rem; align-items: center; margin: .4rem 0; font-size: .85rem; }
button, select, input[type=search] {
  font: inherit; color: inherit; background: var(--panel); border: 1px solid var(--hair); border-radius: 5px;
  padding: .18rem .5rem;
}
select { max-width: 11rem; }
button { cursor: pointer; }
button:hover { border-color: var(--soft); }
button[aria-pressed=true] { background: var(--ink); color: var(--paper); border-color: var(--ink); }
.joined { display: inline-flex; gap: 2px; }
kbd { font: inherit; border: 1px solid var(--hair); border-radius: 3px; padding: 0 .3em; }
:focus-visible { outline: 2px solid var(--bid); outline-offset: 2px; }
.two { display: grid; grid-template-columns: minmax(0, 1fr) 20.5rem; gap: 1.2rem; }
figure { margin: 0; }
#picture { display: block; width: 100%; touch-action: pan-y; cursor: crosshair; user-select: none; }
#picture [data-row], #picture [data-plan] { cursor: pointer; }
#legend { list-style: none; display: flex; flex-wrap: wrap; gap: .15rem 1rem; padding: 0; margin: .3rem 0; font-size: .8rem; }
#legend svg { width: 20px; height: 12px; vertical-align: -2px; margin-right: .3rem; }
aside { font-size: .85rem; font-variant-numeric: tabular-nums; }
aside > div { margin-bottom: .8rem; }
aside > div:empty { display: none; }
aside p { margin: .3rem 0; }
table { border-collapse: collapse; width: 100%; font-variant-numeric: tabular-nums; }
aside td, aside th { text-align: left; padding: .1rem .5rem .1rem 0; font-weight: normal; vertical-align: top; }
aside th { font-size: .78rem; }
#board td, #board th { padding: .1rem .3rem; text-align: right; position: relative; z-index: 0; }
th, #count { color: var(--soft); }
#board th { border-bottom: 1px solid var(--hair); }
#board .side1 { text-align: left; }
#board i { position: absolute; top: 2px; bottom: 2px; opacity: .22; z-index: -1; }
#board .side0 i { right: 0; background: var(--bid); }
#board .side1 i { left: 0; background: var(--offer); }
#board .best { font-weight: 700; }
#board .manual { font-style: italic; }
.chip { display: inline-block; padding: 0 .5em; border-radius: 4px; border: 1px solid; font-size: .78rem; font-weight: 600; }
.chip.CROSSED, .chip.DOUBT { color: var(--crossed); }
.chip.LOCKED { color: var(--flicker); }
.chip.CONFIRMED { color: var(--sweep); }
#plan, #finding { background: var(--panel); border-radius: 6px; padding: .6rem .7rem; }
#plan p:not(.as-is)::first-letter { text-transform: uppercase; }
#plans button { display: block; width: 100%; text-align: left; margin: .2rem 0; }
#plans button[aria-pressed=true] { background: var(--pick); color: inherit; }
#scroll { max-height: 21rem; overflow: auto; border: 1px solid var(--hair); border-radius: 6px; }
#scroll table { font-size: .82rem; }
#scroll th, #scroll td { padding: 0 .5rem; height: 24px; text-align: right; white-space: nowrap; }
#scroll th { position: sticky; top: 0; background: var(--panel); z-index: 2; color: inherit; }
#scroll th button { border: 0; background: none; padding: 0; font-weight: 600; }
#scroll .left { text-align: left; }
#scroll tbody tr { cursor: pointer; }
#scroll tbody tr:hover { background: var(--panel); }
#scroll tr[aria-selected=true] { background: var(--pick); }
#scroll .pad td { padding: 0; height: auto; }
#count { font-weight: normal; font-size: .85rem; }
.unseen { position: absolute; width: 1px; height: 1px; overflow: hidden; clip-path: inset(50%); }
#plain table { width: auto; }
#plain td, #plain th { padding-right: .7rem; text-align: right; }
@media (max-width: 760px) {
  .two { grid-template-columns: minmax(0, 1fr); gap: .6rem; }
  #keys { display: none; }
  #scroll th, #scroll td { padding: 0 .35rem; }
  #scroll { max-height: 24rem; }
}
@media print {
  @page { size: landscape; margin: 8mm; }
  :root { color-scheme: light; font-size: 11px; }
  * { print-color-adjust: exact; }
  body { padding: 0; font-size: 10px; }
  .bar, #keys, #plans { display: none; }
  .two { grid-template-columns: minmax(0, 1fr) 64mm; gap: 4mm; }
  #picture { height: auto !important; max-height: 105mm; }
  aside, #scroll table { font-size: 8px; }
  aside { max-height: 120mm; overflow: hidden; }
  #scroll { max-height: 42mm; overflow: hidden; border: 0; }
  #scroll th, #scroll td { height: 14px; padding: 0 .4rem; }
  #scroll th { position: static; }
}
</style>
</head>
<body>
<header>
  <h1 id="title">A day of quotes</h1>
  <p id="about"></p>
  <p id="damaged" role="alert">This page is not whole, or its script may not run here. Write the file again.</p>
</header>
<noscript><section id="plain">"#;

/// From the plain report to the data.
pub(crate) const MIDDLE: &str = r#"</section></noscript>
<main id="app" hidden>
  <div class="bar" role="toolbar" aria-label="The picture">
    <label>Symbol <select id="symbol"></select></label>
    <span class="joined" role="group" aria-label="Axis">
      <button id="by-time">by time</button><button id="by-version">by version</button>
    </span>
    <span class="joined" role="group" aria-label="Range">
      <button id="in" aria-label="Zoom in">+</button>
      <button id="out" aria-label="Zoom out">&minus;</button>
      <button id="all">all</button>
    </span>
    <span class="joined" role="group" aria-label="Flagged executions">
      <button id="before">&lsaquo; flagged</button>
      <button id="next">flagged &rsaquo;</button>
    </span>
    <label>Quotations of <select id="own"></select></label>
    <label><input type="checkbox" id="clean" checked> clean executions</label>
    <label><input type="checkbox" id="trim" checked> trim far quotes</label>
    <button id="save">save SVG</button>
  </div>
  <div class="two">
    <figure id="figure" tabindex="0" role="group" aria-labelledby="title" aria-describedby="said keys">
      <svg id="picture" role="img" aria-labelledby="title said" preserveAspectRatio="xMinYMin"></svg>
      <figcaption>
        <ul id="legend"></ul>
        <p id="said"></p>
        <p id="keys">Wheel, or <kbd>+</kbd> and <kbd>-</kbd>: zoom. Drag: move. Shift and drag, or drag the strip: choose a range.
          <kbd>&larr;</kbd> <kbd>&rarr;</kbd>: each change. <kbd>,</kbd> <kbd>.</kbd>: each mark. <kbd>p</kbd> <kbd>n</kbd>:
          each flagged execution. <kbd>l</kbd>: each plan. <kbd>0</kbd>: the whole day. <kbd>Esc</kbd>: nothing chosen.</p>
      </figcaption>
    </figure>
    <aside aria-label="The board">
      <h2 id="moment">Board</h2>
      <div id="board"></div>
      <div id="finding"></div>
      <div id="plans"></div>
      <div id="plan"></div>
    </aside>
  </div>
  <section id="findings" aria-label="Findings">
    <h2>Findings <span id="count" role="status"></span></h2>
    <div class="bar" id="filters" role="toolbar" aria-label="Filters"></div>
    <div id="scroll" tabindex="0" role="region" aria-label="Table of findings">
      <table aria-describedby="count"><thead></thead><tbody></tbody></table>
    </div>
  </section>
  <p id="live" class="unseen" role="status" aria-live="polite"></p>
</main>
<script>'use strict';
// One day of quotes as a picture, and its findings as a table. DATA.md says what the data is.
// Prices of quotations are in 1/10,000 dollar, of executions in 1/1,000,000; times are nanoseconds since midnight.
document.addEventListener('DOMContentLoaded', () => {
const $ = id => document.getElementById(id), picture = $('picture');
const make = (name, given) => Object.assign(document.createElement(name), given);
const { floor, max, min } = Math;

// ---- The data: texts, and tables of columns ----

class Damaged extends Error {}
function must(holds, words) { if (!holds) throw new Damaged(words); }

// The columns that this page reads.
const COLUMNS = {
  days: 'first last timed',
  lines: 'day version time bid_by bid bid_shares offer_by offer offer_shares',
  board: 'day version time by bid bid_shares bid_age offer offer_shares offer_age manual',
  lots: 'day version time lot',
  executions: 'day time version kind price shares side by record count worst through cause',
  rows: 'execution offer by price shares age worse own flicker',
  aside: 'refused other',
  plans: 'day version time side shares limit name verdict',
  legs: 'plan by price shares',
  quotations: 'plan by price shares sent over note',
  said: 'plan part text',
};
// The list or the table that columns have places in.
const PLACES = { symbols: ' day ', names: ' by bid_by offer_by ', words: ' name verdict note text ',
  executions: ' execution ', plans: ' plan ' };
// How many values columns of kinds have.
const MOST = { timed: 2, kind: 4, side: 3, part: 3 };
const DIGITS = 'ABCDEFGHIJKLMNOPQRSTUVWXYZabcdefghijklmnopqrstuvwxyz0123456789+/';
const DIGIT = new Uint8Array(128).fill(64);
for (let i = 0; i < 64; i++) DIGIT[DIGITS.charCodeAt(i)] = i;

// A column: a digit for its unit, then differences in base 32, lowest digit first. All values are below `most`.
function readColumn(text, n, name, most) {
  const values = new Float64Array(n), unit = 10 ** '0123456789'.indexOf(text[0]);
  let value = 0, at = 1;
  must(unit >= 1, `${name} has no unit`);
  for (let row = 0; row < n; row++) {
    let number = 0, scale = 1, digit;
    do {
      digit = DIGIT[text.charCodeAt(at++)];
      if (!(digit < 64)) throw new Damaged(`${name} has no number in row ${row + 1} of ${n}`);
      number += (digit & 31) * scale;
      scale *= 32;
    } while (digit > 31);
    value += (number % 2 ? 1 - number : number) / 2;
    if (!(value >= 0 && value * unit < most)) throw new Damaged(`${name} has a number out of its range in row ${row + 1}`);
    values[row] = value * unit;
  }
  must(at === text.length, `${name} has more than ${n} rows`);
  return values;
}
function readTable(name) {
  const given = data[name], n = given && given.n, table = { n };
  must(Number.isInteger(n) && n >= 0, `there is no table ${name}`);
  for (const column of COLUMNS[name].split(' ')) {
    const text = given[column], list = data[Object.keys(PLACES).find(it => PLACES[it].includes(` ${column} `))];
    const most = MOST[column] || !list ? MOST[column] || 2 ** 47 : list.n === undefined ? list.length : list.n;
    table[column] = text === undefined ? new Float64Array(n) : readColumn(text, n, `${name}.${column}`, most);
  }
  return table;
}
let data, days, lines, lots, trades, passed, aside, plans, legs, quotations, said, boards;
function readData() {
  try { data = JSON.parse($('data').textContent); } catch (error) { throw new Damaged(`it is torn: ${error.message}`); }
  must(data && data.format === 1, 'it is not of format 1');
  for (const name of ['about', 'symbols', 'names', 'causes', 'ids', 'words'])
    must(Array.isArray(data[name]), `there are no ${name}`);
  const { board, ...read } = COLUMNS;
  must(data.board, 'there is no board');
  [days, lines, lots, trades, passed, aside, plans, legs, quotations, said] = Object.keys(read).map(readTable);
  boards = once(() => readTable('board'));
  must(days.n && days.n === data.symbols.length, 'days and symbols differ');
  must(trades.n === data.ids.length, 'ids and executions differ');
}
// The first place whose value is greater than x.
function after(values, x) {
  let low = 0, high = values.length;
  while (low < high) {
    const middle = (low + high) >> 1;
    if (values[middle] > x) high = middle; else low = middle + 1;
  }
  return low;
}
const range = (from, to) => Array.from({ length: max(0, to - from) }, (_, i) => from + i);
// The places of a value in a column that is sorted.
const placesOf = (column, value) => range(after(column, value - 1), after(column, value));
const within = (x, low, high) => min(max(x, low), high);
// A value that is made when it is first asked for.
const once = of => { let made; return () => made === undefined ? made = of() : made; };
// The rows of a table that are of one day, as views of its columns.
function ofDay(table, day) {
  const from = after(table.day, day - 1), to = after(table.day, day);
  return mapped(table, to - from, column => column.subarray(from, to));
}
const mapped = (table, n, of) =>
  Object.assign({}, ...Object.keys(table).map(name => ({ [name]: name === 'n' ? n : of(table[name]) })));
// The columns of both sides: bids are side 0, offers side 1.
const sidesOf = rows => ['bid', 'offer'].map(name =>
  ({ price: rows[name], size: rows[`${name}_shares`], by: rows[`${name}_by`], age: rows[`${name}_age`] }));

// ---- Words ----

const MARKETS = ['EMPTY', 'ONESIDED', 'NORMAL', 'LOCKED', 'CROSSED'], LOCKED = 3, CROSSED = 4;
const KINDS = ['clean', 'not quoted', 'perhaps', 'through'], PERHAPS = 2, THROUGH = 3;
const SIDES = ['', 'buy', 'sell'];
// A mark's colour and shape are those of its group.
const GROUPS = ['no exception', 'sweep claimed', 'crossed market', 'flickering', 'self-help claimed', 'other claim'];
const GROUP_OF = [/^(NONE)?$/, /ISO|SWEPT/, /CROSSED/, /FLICKER/, /SELFHELP/];

const safe = text => String(text).replace(/[&<>"']/g, it => `&#${it.charCodeAt(0)};`);
function money(price, places = 4) {
  const text = String(price).padStart(places + 1, '0');
  return `${text.slice(0, -places)}.${text.slice(-places)}`;
}
const fine = price => money(price, 6).replace(/00$/, '');
const commas = number => String(number).replace(/\B(?=(\d{3})+$)/g, ',');
const counted = (number, one) => `${commas(number)} ${one}${number === 1 ? '' : 's'}`;
const times = number => number === 1 ? 'once' : number ? `${commas(number)} times` : 'never';
function clock(time, places = 9) {
  const two = number => String(floor(number)).padStart(2, '0'), seconds = floor(time / 1e9);
  let part = String(floor(time - seconds * 1e9)).padStart(9, '0').slice(0, places);
  if (places === 9) part = part.replace(/0+$/, '');
  return `${two(seconds / 3600)}:${two(seconds / 60 % 60)}:${two(seconds % 60)}${part && '.'}${part}`;
}
function timeOf(text) {
  const part = /^(\d+):(\d+):(\d+)(?:\.(\d{1,9}))?$/.exec(text);
  return part ? (part[1] * 3600 + part[2] * 60 + +part[3]) * 1e9 + +(part[4] || '').padEnd(9, '0') : NaN;
}
const nameOf = by => safe(data.names[by]);
const wordsOf = place => safe(data.words[place]);
const isFlagged = row => trades.kind[row] >= PERHAPS;
// The exceptions of an execution: the first of `causes` counts 1 in its number, the next one 2, and so on.
const causesOf = row => data.causes.filter((_, i) => trades.cause[row] >> i & 1);
const causeOf = row => isFlagged(row) ? causesOf(row).join('+') || 'NONE' : '';
// What the program counts as `no cause`: rows were left, and no exception but self-help is claimed.
const isBare = row => trades.kind[row] === THROUGH &&
  (causeOf(row) === 'NONE' || causeOf(row) === 'SELFHELP-CLAIMED' && trades.count[row] > 0);
const groupOf = (made => row => made[trades.cause[row]] ??= (GROUP_OF.findIndex(it => it.test(causeOf(row))) + 6) % 6)([]);
const markOf = row => isFlagged(row) ? `g${groupOf(row)}` : 'clean';

// ---- A day ----

const dayOf = (made => symbol => made[symbol] || (made[symbol] = makeDay(symbol)))([]);
function makeDay(symbol) {
  const day = quoted(ofDay(lines, symbol));
  Object.assign(day, { lots: ofDay(lots, symbol), kept: [], own: {}, timed: days.timed[symbol] === 1 && day.lines.n > 0 });
  day.board = once(() => ofDay(boards(), symbol));
  day.rows = once(() => range(0, trades.n).filter(row => trades.day[row] === symbol));
  day.version = once(() => ({ places: day.lines.version, marks: sorted(day, row => trades.version[row] + .5),
    from: days.first[symbol], to: days.last[symbol] + 1, least: 1 }));
  day.time = once(() => timeAxis(day));
  return day;
}
// Lines of quotations, with the market of each and their summaries.
function quoted(rows) {
  const day = { lines: rows, sides: sidesOf(rows) };
  day.market = Uint8Array.from(rows.version, (_, i) => marketOf(rows.bid[i], rows.offer[i]));
  day.sums = summaryOf(day);
  return day;
}
function marketOf(bid, offer) {
  if (!bid || !offer) return bid || offer ? 1 : 0;
  return bid < offer ? 2 : bid === offer ? LOCKED : CROSSED;
}
// The time axis: from the first line or execution to the last.
function timeAxis(day) {
  const places = day.lines.time, marks = sorted(day, row => trades.time[row]);
  const ends = [places, marks.places].flatMap(it => [...it.slice(0, 1), ...it.slice(-1)]);
  const from = min(...ends), to = max(...ends);
  const room = max(1e6, (to - from) * .015);
  return { places, marks, from: from - room, to: to + room, least: 1000 };
}
// A day's executions in the order of their places on an axis, and how many before each are flagged.
function sorted(day, place) {
  const all = Float64Array.from(day.rows(), place), order = [...all.keys()].sort((a, b) => all[a] - all[b] || a - b);
  const rows = Int32Array.from(order, i => day.rows()[i]), flagged = new Int32Array(rows.length + 1);
  rows.forEach((row, i) => { flagged[i + 1] = flagged[i] + isFlagged(row); });
  return { places: Float64Array.from(order, i => all[i]), rows, flagged };
}
// So that a picture of a million lines costs what its pixels cost: of each 64 lines their least and greatest; before each line
// how many were locked and crossed, how many such stretches began, and the sum of sizes.
const BLOCK = 64;
const empty = () => ({ low: [Infinity, Infinity], high: [0, 0], most: [0, 0], markets: 0 });
function widen(sum, side, low, high, most) {
  if (low && low < sum.low[side]) sum.low[side] = low;
  if (high > sum.high[side]) sum.high[side] = high;
  if (most > sum.most[side]) sum.most[side] = most;
}
function see(sum, day, line) {
  for (let side = 0; side < 2; side++) {
    const { price, size } = day.sides[side];
    widen(sum, side, price[line], price[line], size[line]);
  }
  sum.markets |= 1 << day.market[line];
}
function summaryOf(day) {
  const { n } = day.lines, counts = () => new Float64Array(n + 1), sums = { blocks: [], size: [counts(), counts()] };
  for (const market of [LOCKED, CROSSED]) sums[market] = { lines: counts(), begun: counts() };
  for (let i = 0; i < n; i++) {
    if (i % BLOCK === 0) sums.blocks.push(empty());
    see(sums.blocks[sums.blocks.length - 1], day, i);
    for (let market = LOCKED; market <= CROSSED; market++) {
      const is = day.market[i] === market, { lines: all, begun } = sums[market];
      all[i + 1] = all[i] + is;
      begun[i + 1] = begun[i] + (is && (i === 0 || day.market[i - 1] !== market));
    }
    for (let side = 0; side < 2; side++) sums.size[side][i + 1] = sums.size[side][i] + day.sides[side].size[i];
  }
  return sums;
}
// The summary of lines: whole blocks by theirs, the others one by one.
function gather(day, first, last) {
  const sum = empty();
  for (let i = first; i <= last;) {
    if (i % BLOCK || i + BLOCK - 1 > last) { see(sum, day, i++); continue; }
    const { low, high, most, markets } = day.sums.blocks[i / BLOCK];
    for (let side = 0; side < 2; side++) widen(sum, side, low[side], high[side], most[side]);
    sum.markets |= markets;
    i += BLOCK;
  }
  return sum;
}

// The board at a version is folded from the snapshot before it; one is kept for each 1,024 rows. A participant has price, size
// and receipt of each side, and whether it is manual.
const EVERY = 1024, WIDTH = 7;
function fold(board, rows, from, to) {
  const sides = sidesOf(rows);
  for (let i = from; i < to; i++) {
    const at = rows.by[i] * WIDTH;
    sides.forEach(({ price, size, age }, side) => board.set([price[i], size[i], rows.version[i] - age[i]], at + 3 * side));
    board[at + 6] = rows.manual[i];
  }
}
function boardAt(day, version) {
  const rows = day.board(), count = after(rows.version, version), whole = floor(count / EVERY), { kept } = day;
  if (!kept.length) kept.push(new Float64Array(data.names.length * WIDTH));
  for (let k = kept.length; k <= whole; k++) {
    kept.push(kept[k - 1].slice());
    fold(kept[k], rows, (k - 1) * EVERY, k * EVERY);
  }
  const board = kept[whole].slice();
  fold(board, rows, whole * EVERY, count);
  return board;
}
const lineOf = (day, version) => after(day.lines.version, version) - 1;
// The rows of one side in rank order: price, size, receipt. Without a board it is the best row only.
function ladder(day, version, side) {
  const line = lineOf(day, version), { by, price, size } = day.sides[side], found = [];
  const best = { by: by[line], price: price[line], size: size[line], isBest: true };
  if (!day.board().n) return best.size ? [best] : [];
  const board = boardAt(day, version);
  for (let part = 0; part < data.names.length; part++) {
    const at = part * WIDTH, [price, size, receipt] = board.subarray(at + 3 * side);
    if (size) found.push({ by: part, price, size, receipt, isBest: part === best.by, isManual: board[at + 6] });
  }
  return found.sort((a, b) => (side ? a.price - b.price : b.price - a.price) || b.size - a.size || a.receipt - b.receipt);
}

// ---- What is shown, and the address that says so ----

const now = { symbol: 0, axis: 'time', from: 0, to: 1, at: null, row: -1, plan: -1, own: 0 };
let day, axis;
function choose(symbol, name = now.axis) {
  now.symbol = symbol;
  day = dayOf(symbol);
  now.axis = name === 'time' && day.timed ? 'time' : 'version';
  axis = day[now.axis]();
}
const showAll = () => Object.assign(now, { from: axis.from, to: axis.to });
const byTime = () => now.axis === 'time', pane = () => G.right - G.left;
const width = () => now.to - now.from;
const isShown = x => x >= now.from && x <= now.to;
const lineAt = x => after(axis.places, x) - 1;
const placeIn = (table, row) => byTime() ? table.time[row] : table.version[row] + .5;
const placeOf = row => placeIn(trades, row);
const placeOfPlan = plan => placeIn(plans, plan);
const chosenPlace = () => now.row >= 0 ? placeOf(now.row) : now.plan >= 0 ? placeOfPlan(now.plan) : null;
const middle = () => now.at !== null && isShown(now.at) ? now.at : (now.from + now.to) / 2;

function show(from, to) {
  const wide = within(to - from, axis.least, axis.to - axis.from);
  now.from = within((from + to - wide) / 2, axis.from, axis.to - wide);
  now.to = now.from + wide;
  drawSoon();
}
const showAbout = (x, wide = width()) => show(x - wide / 2, x + wide / 2);
const zoom = (by, at = middle()) => show(at - (at - now.from) * by, at + (now.to - at) * by);
const move = by => show(now.from + by * width(), now.to + by * width());

function writeAddress() {
  const text = x => byTime() ? clock(x) : x.toFixed(2).replace(/\.?0+$/, '');
  const parts = [['sym', data.symbols[now.symbol]], ['by', now.axis], ['from', text(now.from)], ['to', text(now.to)]];
  if (now.row >= 0) parts.push(['row', now.row + 1]);
  if (now.plan >= 0) parts.push(['plan', now.plan + 1]);
  history.replaceState(null, '', `#${parts.map(it => it.join('=')).join('&')}`);
}
function readAddress() {
  const given = new URLSearchParams(location.hash.slice(1)), symbol = data.symbols.indexOf(given.get('sym'));
  choose(symbol < 0 ? now.symbol : symbol, given.get('by') || now.axis);
  showAll();
  const end = key => !given.get(key) ? NaN : byTime() ? timeOf(given.get(key)) : +given.get(key);
  if (end('to') > end('from')) show(end('from'), end('to'));
  const place = (key, table) => { const i = given.get(key) - 1; return table.day[i] === now.symbol ? i : -1; };
  Object.assign(now, { row: place('row', trades), plan: place('plan', plans) });
  now.at = chosenPlace();
}

// ---- The picture: layout and scales ----

// Pixels.
const G = { left: 10, top: 8 };
function layout() {
  const width = picture.clientWidth || 900, isSmall = width < 560;
  G.width = width;
  G.right = width - (isSmall ? 56 : 66);
  G.price = isSmall ? 210 : 300;
  G.bottom = G.top + G.price;
  G.strip = G.bottom + 6;
  G.axis = G.strip + 12;
  G.lane = G.axis + 22;
  G.laneHeight = trades.n ? isSmall ? 26 : 36 : 0;
  G.sizes = G.lane + (G.laneHeight && G.laneHeight + 12);
  G.sizeHeight = isSmall ? 60 : 84;
  G.map = G.sizes + G.sizeHeight + 10;
  G.height = G.map + 36;
  picture.setAttribute('viewBox', `0 0 ${G.width} ${G.height}`);
  picture.style.height = `${G.height}px`;
}
const round = number => Math.round(number * 10) / 10;
const xOf = x => G.left + (x - now.from) / width() * pane();
const atX = pixel => now.from + (pixel - G.left) / pane() * width();
let yOf;
const inside = y => within(y, G.top, G.bottom);
const text = (x, y, words, more = '') => `<text x="${round(x)}" y="${round(y)}"${more}>${safe(words)}</text>`;
const label = (y, words) => text(G.right + 6, y, words);
const path = (kind, d, more = '') => `<path class="${kind}" d="${d}"${more}/>`;
const rule = y => path('grid', `M${G.left} ${Math.round(y)}H${G.right}`);

// Of each column of pixels in which a line begins: its first and last line, and where the next one begins.
function columnsOf(its, places, [first, last], x = xOf, back = atX) {
  const found = [];
  for (let i = first; i <= last;) {
    const left = max(x(places[i]), G.left), j = within(after(places, back(floor(left) + 1)) - 1, i, last);
    found.push({ x: round(left), first: i, last: j, next: j < last ? round(x(places[j + 1])) : G.right, sum: gather(its, i, j) });
    i = j + 1;
  }
  return found;
}
// One side as a stepped line. Where lines share a pixel it goes through their least and greatest price to the last.
function stepped(columns, its, side, y = yOf) {
  let d = '', isDown = false, was = 0;
  for (const { x, first, last, next, sum } of columns) {
    const price = its.sides[side].price[last];
    if (!sum.high[side]) { isDown = false; continue; }
    if (first === last) d += !isDown ? `M${x} ${y(price)}H${next}` : price === was ? `H${next}` : `V${y(price)}H${next}`;
    else {
      d += `${isDown ? `H${x}V` : `M${x} `}${y(sum.low[side])}V${y(sum.high[side])}`;
      if (price) d += `V${y(price)}H${next}`;
    }
    isDown = price > 0;
    was = price;
  }
  return d;
}
function niceStep(span, count) {
  const power = 10 ** floor(Math.log10(span / count));
  return max(1, [1, 2, 5, 10].find(it => it * power >= span / count) * power);
}
// Prices outside of these are far from all others, as stub quotes are. They are found by a sample.
function fences(first, last) {
  const prices = [], step = max(1, floor((last - first + 1) / 500));
  for (let i = first; i <= last; i += step) prices.push(...day.sides.map(it => it.price[i]).filter(it => it));
  prices.sort((a, b) => a - b);
  const part = share => prices[floor((prices.length - 1) * share)];
  const room = 3 * max(part(.9) - part(.1), part(.5) * .01, 100);
  return prices.length ? [part(.1) - room, part(.9) + room] : [0, Infinity];
}
const pricesIn = columns => columns.flatMap(({ sum }) => [...sum.low, ...sum.high]).filter(it => it && it < Infinity);
// Sets the scale of prices, and gives its ends, and marks where a price is beyond it.
function scale(columns, lines, rows) {
  const [least, most] = $('trim').checked ? fences(...lines) : [0, Infinity];
  const prices = pricesIn(columns).concat(rows.map(row => trades.price[row] / 100)).filter(it => it >= least && it <= most);
  prices.push(...plansShown().flatMap(pricesOf));
  const low = prices.length ? min(...prices) : 0, high = max(...prices, low + 1);
  const room = high > low + 1 ? max((high - low) * .07, 20) : 100, span = high - low + 2 * room, far = [];
  yOf = price => round(G.top + (high + room - price) / span * G.price);
  for (const column of columns) {
    const its = pricesIn([column]);
    if (its.some(it => it < least)) far.push(`M${column.x} ${G.bottom}l-3-6h6z`);
    if (its.some(it => it > most)) far.push(`M${column.x} ${G.top}l-3 6h6z`);
  }
  return { low: low - room, high: high + room, far };
}

// ---- The picture: what is drawn ----

// The most executions that have a mark each.
const ROOM = 1500;
let waits = 0, settles = 0;
function drawSoon() { if (!waits) waits = requestAnimationFrame(draw); }
function draw() {
  cancelAnimationFrame(waits);
  waits = 0;
  const its = [max(0, lineAt(now.from)), lineAt(now.to)], { places, rows } = axis.marks;
  const from = after(places, now.from - 1e-9), to = after(places, now.to);
  const marked = to - from > ROOM ? [] : [...rows.subarray(from, to)].filter(isMarked);
  const columns = columnsOf(day, axis.places, its), ends = scale(columns, its, marked);
  const words = saidWords(its, from, to, ends.far.length), parts = [priceGrid(ends), ticks(), markets(columns), spread(columns),
    sizes(columns), lotMarks(), quotes(columns), ownQuotes(),
    path('far', ends.far.join('')), lane(from, to), tradeMarks(marked), ...plansShown().map(planMarks), overview()];
  const last = byTime() ? now.to : Math.ceil(now.to) - 1, title = `${data.symbols[now.symbol]}: best bid and best offer, `;
  picture.innerHTML = `<title>${safe(title)}${spoken(now.from)} to ${spoken(last)}</title><desc>${safe(words)}</desc>` +
    `${defined()}${parts.join('')}<g id="cursor"></g>`;
  $('said').textContent = `${spoken(now.from)} to ${spoken(last)}: ${words}`;
  cursor();
  clearTimeout(settles);
  settles = setTimeout(writeAddress, 150);
}
const detail = () => width() > 120e9 ? 0 : width() > 1e9 ? 3 : 9;
const spoken = x => byTime() ? clock(x, detail()) : `version ${commas(floor(x))}`;
function defined() {
  const clip = `<clipPath id="pane"><rect x="${G.left}" y="${G.top}" width="${pane()}" height="${G.price}"/></clipPath>`;
  const pattern = (name, size, inner) =>
    `<pattern id="p-${name}" width="${size}" height="${size}" patternUnits="userSpaceOnUse">${inner}</pattern>`;
  const hatched = (name, kind, d) => pattern(name, 6, `<rect class="of-${name}" width="6" height="6"/>${path(kind, d)}`);
  return `<defs>${clip}${hatched('locked', 'dark-hatch', 'M0 6L6 0')}${hatched('crossed', 'light-hatch', 'M0 0L6 6M0 6L6 0')}` +
    `${pattern('one', 4, path('of-one', 'M1 0V4'))}</defs>`;
}
function priceGrid({ low, high }) {
  const step = niceStep(high - low, G.price / 42);
  let out = '';
  for (let price = Math.ceil(low / step) * step; price <= high; price += step) {
    const words = money(price).replace(step % 100 ? /$^/ : /00$/, '');
    out += rule(yOf(price)) + (yOf(price) > G.bottom - 6 || price < 0 ? '' : label(yOf(price) + 4, words));
  }
  return out;
}
const STEPS = [1, 1e3, 1e6].flatMap(unit => [1, 2, 5, 10, 20, 50, 100, 200, 500].map(it => it * unit))
  .concat([1, 2, 5, 10, 15, 30, 60, 120, 300, 600, 900, 1800, 3600, 7200].map(it => it * 1e9));
function ticks() {
  // A version has the room up to the next one. If there are few, its number is in the middle of that.
  const count = pane() / 95, half = byTime() || width() > 40 ? 0 : .5;
  const step = byTime() ? STEPS.find(it => it >= width() / count) || 7200e9 : niceStep(width(), count);
  const digits = step >= 1e9 ? 0 : step >= 1e6 ? 3 : step >= 1e3 ? 6 : 9;
  let out = label(G.axis + 13, now.axis);
  for (let at = Math.ceil(now.from / step) * step; at <= now.to; at += step) {
    const words = byTime() ? clock(at, digits).slice(0, step >= 60e9 ? 5 : 18) : commas(at);
    const x = xOf(at + half), room = words.length * 3.1;
    out += path('grid', `M${Math.round(xOf(at))} ${G.top}V${G.axis}`);
    if (x > G.left + room && x < G.right - room) out += text(x, G.axis + 13, words, ' text-anchor="middle"');
  }
  return out;
}

// Stretches of some markets: their ends and first lines. Of lines that share a pixel only the last goes on.
function stretches(columns, some, isAny) {
  const found = [], has = line => 1 << day.market[line] & some;
  for (const { x, first, last, next, sum } of columns) {
    if (!(sum.markets & some) || !(first === last || isAny || next - x > 3 && has(last))) continue;
    const end = max(has(last) ? next : x, x + 1.2), before = found[found.length - 1];
    if (before && x <= before.end + .3) before.end = max(before.end, end);
    else found.push({ x, end, line: range(first, last + 1).find(has) });
  }
  return found;
}
function markets(columns) {
  let out = label(G.strip + 9, 'market');
  for (const [name, some] of [['one', 3], ['locked', 1 << LOCKED], ['crossed', 1 << CROSSED]]) {
    for (const { x, end, line } of stretches(columns, some, name === 'one')) {
      const version = day.lines.version[line], box = (kind, y, height) => path(`${kind} ${name}`,
        `M${x} ${y}H${round(end)}v${height}H${x}z`, ` data-version="${version}"`);
      out += box('strip', G.strip, 10) + (name === 'one' ? '' : box('tint', G.top, G.price));
    }
  }
  return out + share(columns, 'locked', LOCKED, G.strip + 10, -1) + share(columns, 'crossed', CROSSED, G.strip, 1);
}
// Where many lines share a pixel: which share of them is locked (from below) or crossed (from above).
function share(columns, name, market, y, way) {
  const { lines: before } = day.sums[market];
  return path(`share ${name}`, columns.map(({ x, first, last }) => {
    const count = before[last + 1] - before[first], height = round(max(count / (last - first + 1) * 10, 1));
    return last > first && count ? `M${x} ${y}v${way * height}h1V${y}z` : '';
  }).join(''));
}
function spread(columns) {
  const [bids, offers] = day.sides.map(it => it.price);
  return path('spread', columns.filter(({ last }) => bids[last] && offers[last]).map(({ x, last, next }) =>
    `M${x} ${yOf(offers[last])}H${next}V${yOf(bids[last])}H${x}z`).join(''), ' clip-path="url(#pane)"');
}
const bothLines = (kind, id, columns, its, y) => ['bid', 'offer'].map((name, side) =>
  path(`line ${kind} ${name}`, stepped(columns, its, side, y), id && ` id="${id}${name}"`)).join('');
const quotes = columns => `<g clip-path="url(#pane)">${bothLines('best', 'best-', columns, day)}</g>`;
// The quotations of one participant.
function ownQuotes() {
  if (!now.own || !day.board().n) return '';
  const its = day.own[now.own] = day.own[now.own] || quoted(rowsWhere(day.board(), i => day.board().by[i] === now.own));
  const at = its.lines[now.axis], ends = [max(0, after(at, now.from) - 1), after(at, now.to) - 1];
  return `<g clip-path="url(#pane)">${bothLines('own', 'own-', columnsOf(its, at, ends), its)}</g>`;
}
function rowsWhere(rows, test) {
  const kept = range(0, rows.n).filter(test);
  return mapped(rows, kept.length, column => Float64Array.from(kept, i => column[i]));
}
// Sizes: offers up, bids down; the mean of a column, and faint its greatest.
function sizes(columns) {
  const centre = G.sizes + G.sizeHeight / 2, most = max(1, ...columns.flatMap(it => it.sum.most));
  const mean = (side, { first, last }) => (day.sums.size[side][last + 1] - day.sums.size[side][first]) / (last - first + 1);
  const end = (side, size) => round(centre + (side ? -1 : 1) * size / most * G.sizeHeight / 2);
  const area = (side, of) => columns.filter(it => it.sum.most[side]).map(it =>
    `M${it.x} ${centre}V${end(side, of(side, it))}H${it.next}V${centre}z`).join('');
  const both = (of, kind) => path(`bids ${kind}`, area(0, of)) + path(`offers ${kind}`, area(1, of));
  return both((side, it) => it.sum.most[side], 'faint') + both(mean, '') + rule(centre) + label(centre + 4, 'shares') +
    label(G.sizes + 9, commas(most)) + label(G.sizes + G.sizeHeight, commas(most));
}
// A change of the round lot is drawn over the sizes that it changes.
function lotMarks() {
  const { lot, [now.axis]: at } = day.lots;
  return range(1, day.lots.n).filter(i => isShown(at[i])).map(i => {
    const x = round(xOf(at[i])), isLate = x > G.right - 130, words = `round lot ${lot[i - 1]} to ${lot[i]}`;
    return path('lot', `M${x} ${G.sizes - 4}v${G.sizeHeight + 4}`, ` data-lot="${lot[i]}"`) +
      sayAt(x, G.sizes + 5, words, isLate, 4);
  }).join('');
}
const sayAt = (x, y, words, isLate, gap) =>
  text(isLate ? x - gap : x + gap, y, words, ` class="say"${isLate ? ' text-anchor="end"' : ''}`);

// Few executions have a mark each, flagged ones drawn last. Flagged ones are always counted in a lane below.
const SHAPES = {
  clean: 'M-2.5 0a2.5 2.5 0 1 0 5 0a2.5 2.5 0 1 0 -5 0', g0: 'M-5-5L5 5M-5 5L5-5', g1: 'M0-6L6 0L0 6L-6 0z', g2: 'M0-6L6 5H-6z',
  g3: 'M0 6L6-5H-6z', g4: 'M-5-5H5V5H-5z', g5: 'M-5 0H5M0-5V5M-3.5-3.5L3.5 3.5M-3.5 3.5L3.5-3.5',
};
const spot = row => [round(xOf(placeOf(row))), round(inside(yOf(trades.price[row] / 100)))];
function tradeMark(row) {
  const kind = markOf(row);
  return path(`mark ${kind}${trades.kind[row] === PERHAPS ? ' perhaps' : ''}`, SHAPES[kind],
    ` transform="translate(${spot(row).join(' ')})" data-row="${row}"`);
}
const tradeMarks = rows =>
  `<g id="marks">${rows.sort((a, b) => isFlagged(a) - isFlagged(b)).map(tradeMark).join('')}</g>`;
const BAR = 6;
function lane(from, to) {
  if (!G.laneHeight) return '';
  const bars = new Map(), base = G.lane + G.laneHeight;
  for (const row of axis.marks.rows.subarray(from, to)) {
    const place = floor((xOf(placeOf(row)) - G.left) / BAR);
    if (!isFlagged(row)) continue;
    if (!bars.has(place)) bars.set(place, GROUPS.map(() => []));
    bars.get(place)[groupOf(row)].push(row);
  }
  const most = max(0, ...[...bars.values()].map(it => it.flat().length));
  const drawn = [...bars].map(([place, parts]) => bar(G.left + place * BAR, base, parts, most)).join('');
  return `${rule(base)}${label(base, 'flagged')}${most ? label(G.lane + 9, commas(most)) : ''}<g id="lane">${drawn}</g>`;
}
function bar(x, y, parts, most) {
  return parts.map((rows, group) => {
    const height = rows.length / most * G.laneHeight;
    y -= height;
    return rows.length ? `<rect class="tally g${group}" x="${x}" y="${round(y)}" width="${BAR - 1}" height="${round(height)}" ` +
      `data-row="${rows[0]}" data-count="${rows.length}"><title>${rows.length} flagged, ${GROUPS[group]}</title></rect>` : '';
  }).join('');
}

// The whole day in a strip, with the range that is shown.
let map = {};
function overview() {
  const x = at => G.left + (at - axis.from) / (axis.to - axis.from) * pane();
  const back = pixel => axis.from + (pixel - G.left) / pane() * (axis.to - axis.from);
  const key = [now.symbol, now.axis, G.width].join(), from = round(x(now.from)), to = round(x(now.to));
  const frame = (a, b) => `M${a} ${G.map}H${b}v32H${a}z`, isAll = to - from > G.right - G.left - 1;
  if (map.key !== key) map = { key, back, drawn: path('grid', frame(G.left, G.right)) + drawnDay(x, back) };
  return `<g id="overview">${map.drawn}${isAll ? '' : path('shade', frame(G.left, from) + frame(to, G.right)) +
    path('hold', frame(from, max(to, from + 2)))}</g>`;
}
function drawnDay(x, back) {
  const ends = [0, day.lines.n - 1], columns = columnsOf(day, axis.places, ends, x, back), [low, high] = fences(...ends);
  const seen = pricesIn(columns).filter(it => it >= low && it <= high);
  const top = max(...seen, 1), span = top - min(...seen, top) || 1;
  const y = price => round(G.map + 4 + within((top - price) / span, -.2, 1.2) * 18);
  const flags = new Set([...axis.marks.rows].filter(isFlagged).map(row => Math.round(x(placeOf(row)))));
  return bothLines('small', '', columns, day, y) + path('mark g0 small', [...flags].map(it => `M${it} ${G.map + 26}v5`).join(''));
}

function saidWords([first, last], from, to, far) {
  const begun = market => {
    const { begun: before } = day.sums[market], isInside = day.market[first] === market && before[first + 1] === before[first];
    return times(last < first ? 0 : before[last + 1] - before[first] + isInside);
  };
  const { flagged } = axis.marks, { lot, n } = day.lots;
  let words = `${counted(max(0, last - first + 1), 'line')} of the stream, locked ${begun(LOCKED)}, crossed ${begun(CROSSED)}`;
  if (n) words += `; round lot ${lot[0]}${n > 1 ? ` at first, changed ${times(n - 1)} that day` : ''}`;
  if (trades.n) words += `; ${counted(to - from, 'execution')}, ${commas(flagged[to] - flagged[from])} flagged`;
  if (far) words += '. Quotes far from all others are cut at the edge';
  if (to - from > ROOM) words += `. If at most ${commas(ROOM)} are in sight, each has its mark`;
  return `${words}.`;
}

// ---- Plans ----

const plansShown = () => range(0, plans.n).filter(it => plans.day[it] === now.symbol && isShown(placeOfPlan(it)));
const overOf = plan => placesOf(quotations.plan, plan).filter(it => quotations.over[it]);
const pricesOf = plan => [...placesOf(legs.plan, plan).map(it => legs.price[it]), ...overOf(plan).map(it => quotations.price[it]),
  plans.limit[plan]];
// The plan that is chosen has words and its limit; of the others there are the marks only.
function planMarks(plan) {
  const x = round(xOf(placeOfPlan(plan))), isChosen = plan === now.plan, limit = yOf(plans.limit[plan]);
  const say = (y, words) => isChosen ? sayAt(x, y - 8, words, x > G.right - 190, 10) : '';
  let out = path('plan dotted', `M${x} ${G.top}V${G.axis}`);
  if (isChosen) out += path('plan dashed', `M${G.left} ${limit}H${G.right}`, ' id="limit"') +
    sayAt(G.left, limit < G.top + 16 ? limit + 13 : limit - 5, `limit ${money(plans.limit[plan])}`, false, 4);
  for (const i of overOf(plan)) {
    const y = yOf(quotations.price[i]), name = nameOf(quotations.by[i]);
    out += path('over', `M${x} ${y - 7}l7 7l-7 7l-7-7z`, ` data-over="${name}"`) +
      say(y, `${name}'s ${commas(quotations.shares[i])} at ${money(quotations.price[i])} passed over`);
  }
  for (const i of placesOf(legs.plan, plan)) {
    const y = yOf(legs.price[i]), name = nameOf(legs.by[i]);
    out += `<circle class="leg" r="${isChosen ? 6 : 4}" cx="${x}" cy="${y}" data-leg="${name}"/>` +
      say(y, `${commas(legs.shares[i])} to ${name} at ${money(legs.price[i])}`);
  }
  return `<g data-plan="${plan}">${out}</g>`;
}
const chip = words => `<span class="chip ${words.split(' ')[0]}">${words}</span>`;
const cells = values => `<tr><td>${values.join('<td>')}`;
function planButtons() {
  $('plans').innerHTML = (plans.n ? '<h2>Plans</h2>' : '') + range(0, plans.n).map(plan => {
    const it = name => plans[name][plan], symbol = safe(data.symbols[it('day')]);
    return `<button data-plan="${plan}" aria-pressed="${plan === now.plan}">${wordsOf(it('name'))}: ` +
      `version ${commas(it('version'))}, ${SIDES[it('side')]} ${commas(it('shares'))} ${symbol} at ${money(it('limit'))} ` +
      `${chip(wordsOf(it('verdict')))}</button>`;
  }).join('');
}
function planWords() {
  const { plan } = now, q = quotations, sentences = placesOf(said.plan, plan);
  const [order, doubt, certificate] = [0, 1, 2].map(part =>
    sentences.filter(it => said.part[it] === part).map(it => said.text[it]).map(it =>
      `<p${data.words[it].startsWith(data.words[plans.name[plan]]) ? ' class="as-is"' : ''}>${wordsOf(it)}`).join(''));
  const rows = placesOf(q.plan, plan).map(it =>
    cells([nameOf(q.by[it]), money(q.price[it]), commas(q.shares[it]), commas(q.sent[it]), wordsOf(q.note[it])])).join('');
  $('plan').innerHTML = plan < 0 ? '' : `<h2>The plan ${chip(wordsOf(plans.verdict[plan]))}</h2><b>${doubt}</b>${order}` +
    (rows && `<table><tr><th>from<th>price<th>shown<th>sent<th>${rows}</table>`) +
    (certificate && `<details><summary>The certificate</summary>${certificate}</details>`);
}
function choosePlan(plan) {
  if (plans.day[plan] !== now.symbol) { choose(plans.day[plan]); showAll(); }
  Object.assign(now, { plan, row: -1, at: placeOfPlan(plan) });
  if (!isShown(now.at)) showAbout(now.at);
  redraw();
  say($('plan').textContent);
}

// ---- The cursor, and the board at it ----

function cursor() {
  let out = now.at !== null && isShown(now.at) ? crosshair(round(xOf(now.at)), lineAt(now.at)) : '';
  if (now.row >= 0 && isShown(placeOf(now.row))) {
    const [x, y] = spot(now.row);
    out = `<circle class="ring" r="11" cx="${x}" cy="${y}" data-ring="${now.row}"/>${tradeMark(now.row)}${out}`;
  }
  $('cursor').innerHTML = out;
  panel();
}
function crosshair(x, line) {
  const prices = day.sides.map(it => line < 0 ? 0 : it.price[line]);
  let [low, high] = prices.map(it => inside(yOf(it)));
  if (prices[0] && prices[1] && Math.abs(low - high) < 17) {
    const half = low >= high ? 8.5 : -8.5, at = (low + high) / 2;
    [low, high] = [at + half, at - half];
  }
  const words = byTime() ? clock(now.at, detail()) : commas(floor(now.at)), wide = words.length * 6.3 + 10;
  const tag = (left, y, words, wide, kind = '') =>
    `<rect class="tagbox ${kind}" x="${round(left)}" y="${round(y - 8)}" width="${round(wide)}" height="16" rx="2"/>` +
    text(left + 5, y + 4, words, ' class="tag"');
  const price = (side, y, kind) => prices[side] ? tag(G.right + 1, y, money(prices[side]), G.width - G.right - 2, kind) : '';
  return path('cross', `M${x} ${G.top}V${G.map + 32}`) + price(0, low, 'bid') + price(1, high, 'offer') +
    tag(within(x - wide / 2, G.left, G.right - wide), G.axis + 9, words, wide);
}
function versionAt(x) {
  const first = days.first[now.symbol], rows = day.board().n ? day.board() : day.lines;
  if (!byTime()) return within(floor(x), first, days.last[now.symbol]);
  const i = after(rows.time, x) - 1;
  return i < 0 ? first : rows.version[i];
}
let shown = '', isReady = false;
function panel() {
  if (!isReady) return;
  const at = now.at === null ? now.to : now.at, isChosen = now.at !== null && now.at === chosenPlace();
  const version = !isChosen ? versionAt(at) : now.row >= 0 ? trades.version[now.row] : plans.version[now.plan];
  const line = lineOf(day, version), name = line < 0 ? 'EMPTY' : MARKETS[day.market[line]];
  const when = byTime() ? `, ${clock(at, 6)}` : line >= 0 && day.timed ? `, since ${clock(day.lines.time[line], 6)}` : '';
  $('moment').innerHTML = `Version ${commas(version)}${when} ${chip(name)}`;
  $('finding').innerHTML = findingWords(now.row);
  if (shown === `${now.symbol} ${version}`) return;
  shown = `${now.symbol} ${version}`;
  $('board').dataset.version = version;
  drawBoard([0, 1].map(side => ladder(day, version, side)));
}
function drawBoard(sides) {
  const most = max(1, ...sides.flat().map(it => it.size)), height = max(1, ...sides.map(it => it.length));
  const row = i => {
    const [bid, offer] = sides.map((rows, side) => {
      const { by, size, price, receipt, isBest, isManual } = rows[i] || {};
      const kind = `side${side}${isBest ? ' best' : ''}${isManual ? ' manual' : ''}`;
      return (size ? [nameOf(by), `<i data-width="${size / most}"></i>${commas(size)}`, money(price)] : ['', '', '']).map(words =>
        `<td class="${kind}" title="${receipt ? `receipt ${receipt}` : ''}">${words}`);
    });
    return `<tr>${[...bid, ...offer.reverse()].join('')}`;
  };
  const note = day.board().n ? 'Displayed shares. Bold: best. Italic: manual.' : 'This file has the best only.';
  $('board').innerHTML = `<table><tr><th>who<th>shares<th>bid<th class="side1">offer<th class="side1">shares` +
    `<th class="side1">who${range(0, height).map(row).join('')}</table><p>${note}</p>`;
  for (const it of $('board').querySelectorAll('i')) it.style.width = `${it.dataset.width * 100}%`;
}
function findingWords(row) {
  if (row < 0) return '';
  const it = name => trades[name][row], where = it('by') ? `on ${nameOf(it('by'))}` : 'off an exchange';
  const time = it('time') || day.timed ? `${clock(it('time'))}, ` : '', side = it('side') ? `, to ${SIDES[it('side')]}` : '';
  const rows = placesOf(passed.execution, row).map(i => {
    const { by, offer, price, shares, worse, own, flicker } = mapped(passed, 0, column => column[i]);
    return cells([`${nameOf(by)} ${offer ? 'offer' : 'bid'}`, money(price), commas(shares),
      `${fine(worse)}${own ? ' own' : ''}${flicker ? ' flickered' : ''}`]);
  });
  return `<h2>${safe(data.ids[row])} ${chip(KINDS[it('kind')])}</h2><p>${commas(it('shares'))} ${safe(symbolOf(row))} at ` +
    `${fine(it('price'))} ${where}${side}, ${time}version ${commas(it('version'))}. ` +
    `${isFlagged(row) ? `Exception: ${safe(causeOf(row)).replace('NONE', 'none')}.` : ''}</p>` +
    (rows.length ? `<table><tr><th>traded through<th>price<th>shares<th>worse by${rows.join('')}</table>` : '');
}
const say = words => { $('live').textContent = words; };

// ---- The table of findings: only the rows in sight are in the page ----

const HALF = 1800e9, ROW = 24, filters = { kind: '', cause: '', by: '', symbol: '', half: '', id: '' };
let view = [], sort = { name: '#', way: 1 };
const bestAt = once(() => [0, 1].map(side => Float64Array.from(trades.version, (version, row) => {
  const its = dayOf(trades.day[row]), line = lineOf(its, version);
  return line < 0 ? 0 : its.sides[side].price[line];
})));
const venueOf = row => data.names[trades.by[row]] || '(none)';
const symbolOf = row => data.symbols[trades.day[row]];
const number = (name, value, show = commas) => ({ name, value, show: row => value(row) ? show(value(row)) : '' });
const word = (name, show) => ({ name, value: show, show, isLeft: true });
const columnsShown = once(() => [
  { name: '#', value: row => row, show: row => trades.record[row] }, word('id', row => data.ids[row]), word('symbol', symbolOf),
  number('time', row => trades.time[row], clock), number('version', row => trades.version[row]),
  word('finding', row => KINDS[trades.kind[row]]), word('exception', row => isFlagged(row) ? causeOf(row) : ''),
  word('side', row => SIDES[trades.side[row]]), word('on', venueOf), number('price', row => trades.price[row], fine),
  number('best bid', row => bestAt()[0][row], money), number('best offer', row => bestAt()[1][row], money),
  number('worse by', row => trades.worst[row], fine), number('shares', row => trades.shares[row]),
  number('through', row => trades.through[row]),
  word('whose', row => placesOf(passed.execution, row).map(i => data.names[passed.by[i]]).join(' ')),
].filter(it => (it.name !== 'time' || days.timed.includes(1)) && (it.name !== 'symbol' || data.symbols.length > 1)));

const isKind = kind => row => trades.kind[row] === kind;
const KIND_FILTERS = { flagged: isFlagged, through: isKind(THROUGH), 'through, no exception': isBare, perhaps: isKind(PERHAPS),
  clean: isKind(0), 'not quoted': isKind(1) };
function filter() {
  const { kind, cause, by, symbol, half } = filters, id = filters.id.toLowerCase(), tests = [];
  const bit = data.causes.indexOf(cause);
  if (kind) tests.push(KIND_FILTERS[kind]);
  if (cause) tests.push(row => trades.kind[row] === THROUGH && trades.cause[row] >> bit & 1);
  if (by) tests.push(row => venueOf(row) === by);
  if (symbol) tests.push(row => symbolOf(row) === symbol);
  if (half) tests.push(row => floor(trades.time[row] / HALF) === +half);
  if (id) tests.push(row => data.ids[row].toLowerCase().includes(id));
  view = ordered(range(0, trades.n).filter(row => tests.every(test => test(row))));
  const sum = view.reduce((all, row) => all + trades.through[row], 0), refused = aside.n ? aside.refused[0] : 0;
  $('count').textContent = `${commas(view.length)} of ${commas(trades.n)}${sum ? `, ${commas(sum)} shares through` : ''}` +
    (refused ? `; ${counted(refused, 'record')} refused` : '');
  $('scroll').scrollTop = 0;
  drawRows();
}
function ordered(rows) {
  if (sort.name === '#') return sort.way > 0 ? rows : rows.reverse();
  const keys = rows.map(columnsShown().find(it => it.name === sort.name).value);
  const less = (a, b) => keys[a] < keys[b] ? -sort.way : keys[a] > keys[b] ? sort.way : a - b;
  return [...keys.keys()].sort(less).map(i => rows[i]);
}
function drawRows() {
  const box = $('scroll'), first = max(0, floor(box.scrollTop / ROW) - 10), table = box.querySelector('table');
  const last = min(view.length, first + Math.ceil((box.clientHeight || 500) / ROW) + 20), columns = columnsShown();
  const pad = count => `<tr class="pad" aria-hidden="true"><td colspan="${columns.length}" height="${count * ROW}">`;
  const rows = range(first, last).map(i =>
    `<tr data-row="${view[i]}" aria-rowindex="${i + 2}" aria-selected="${view[i] === now.row}">` +
    columns.map(it => `<td${it.isLeft ? ' class="left"' : ''}>${safe(it.show(view[i]))}`).join(''));
  table.setAttribute('aria-rowcount', view.length + 1);
  table.tBodies[0].innerHTML = pad(first) + rows.join('') + pad(view.length - last);
}
// Shows an execution: its moment in the picture, its board, its row.
function pick(row, isScrolled) {
  if (trades.day[row] !== now.symbol) { choose(trades.day[row]); showAll(); }
  const x = placeOf(row), i = lineAt(x), edge = width() * .1, at = k => axis.places[within(k, 0, axis.places.length - 1)];
  Object.assign(now, { row, at: x });
  // From the whole of a busy day it goes to some eighty lines about the moment.
  const isAll = width() > (axis.to - axis.from) * .9, lines = at(i + 40) - at(i - 40) || 0;
  const near = isAll ? max(lines, byTime() ? 1e6 : 20) : width();
  if (x < now.from + edge || x > now.to - edge || near < width()) showAbout(x, near);
  redraw();
  if (isScrolled) scrollTo(view.indexOf(row) * ROW);
  drawRows();
  say($('finding').textContent);
}
function scrollTo(y) {
  const box = $('scroll');
  if (y >= 0 && (y < box.scrollTop || y > box.scrollTop + box.clientHeight - 3 * ROW)) box.scrollTop = y - box.clientHeight / 2;
}
function csv() {
  // No text of these has a comma or a quote; numbers have commas only for the eye.
  const columns = columnsShown(), cell = (it, row) => String(it.show(row)).replace(/,/g, '');
  const head = columns.map(it => it.name.replace(' ', '_').replace('#', 'record'));
  return [head, ...view.map(row => columns.map(it => cell(it, row)))].map(it => `${it.join()}\r\n`).join('');
}

// ---- Files that the page gives ----

function give(name, type, words) {
  const link = make('a', { href: URL.createObjectURL(new Blob([words], { type })), download: name });
  link.click();
  setTimeout(() => URL.revokeObjectURL(link.href), 1000);
}
// The picture as a file of its own, with its style; the strip of the whole day only chooses a range.
function svg() {
  const copy = picture.cloneNode(true), css = $('style').textContent, size = `width="${G.width}" height="${G.map}"`;
  copy.querySelector('#overview').remove();
  for (const name of ['style', 'id', 'aria-labelledby']) copy.removeAttribute(name);
  copy.setAttribute('viewBox', `0 0 ${G.width} ${G.map}`);
  const style = css.slice(css.indexOf('/* picture'), css.indexOf('/* end of picture'));
  return `${new XMLSerializer().serializeToString(copy)}\n`.replace('<svg ', `<svg ${size} `)
    .replace('<defs>', `<style>${style}</style><rect class="paper" ${size}/><defs>`);
}

// ---- Hands and keys ----

function controls() {
  $('symbol').value = now.symbol;
  for (const name of ['time', 'version']) $(`by-${name}`).setAttribute('aria-pressed', now.axis === name);
  $('by-time').disabled = !day.timed;
  document.title = $('title').textContent = `${data.symbols[now.symbol]}: best bid and best offer`;
  planButtons();
  planWords();
}
function redraw() { controls(); draw(); }
function changeAxis(name) {
  const first = max(0, lineAt(now.from)), last = lineAt(now.to), isAll = width() >= (axis.to - axis.from) * .999;
  if (name === now.axis) return;
  choose(now.symbol, name);
  if (isAll || last < first) showAll(); else show(axis.places[first], last + 1 < day.lines.n ? axis.places[last + 1] : axis.to);
  now.at = chosenPlace();
  redraw();
}
function changeSymbol(symbol) {
  choose(symbol);
  showAll();
  clear();
}
function clear() {
  Object.assign(now, { row: -1, plan: -1, at: null });
  refresh();
}
function refresh() {
  redraw();
  if (trades.n) drawRows();
}
// To the next of some rows or the one before, around the ends.
function go(rows, chosen, by, to) {
  const at = rows.indexOf(chosen), { length } = rows;
  if (length) to(rows[(at + by + length + (at < 0 && by < 0)) % length]);
}
const isMarked = row => $('clean').checked || isFlagged(row), pickRow = row => pick(row, true);
const goFlagged = by => go(view.filter(isFlagged), now.row, by, pickRow);
const goMark = by => go([...axis.marks.rows].filter(isMarked), now.row, by, pickRow);
function step(by) {
  const at = axis.places, i = within(lineAt(now.at === null ? now.from : now.at) + by, 0, at.length - 1);
  if (!at.length) return;
  Object.assign(now, { at: at[i] + (byTime() ? 0 : .5), row: -1 });
  if (!isShown(now.at)) showAbout(now.at);
  cursor();
  const price = ({ price }) => price[i] ? money(price[i]) : 'none';
  say(`${$('moment').textContent}: bid ${price(day.sides[0])}, offer ${price(day.sides[1])}`);
}
const all = () => show(axis.from, axis.to);
const KEYS = {
  ArrowLeft: event => event.shiftKey ? move(-.2) : step(-1), ArrowRight: event => event.shiftKey ? move(.2) : step(1),
  '+': () => zoom(.5), '-': () => zoom(2), 0: all, Escape: clear,
  n: () => goFlagged(1), p: () => goFlagged(-1), '.': () => goMark(1), ',': () => goMark(-1),
  l: () => go(range(0, plans.n), now.plan, 1, choosePlan),
};
function keys(event) {
  const act = KEYS[event.key];
  if (!act || event.ctrlKey || event.metaKey || event.altKey) return;
  event.preventDefault();
  act(event);
}
let hold = null;
function pixel({ clientX, clientY }) {
  const { left, top } = picture.getBoundingClientRect();
  return [clientX - left, clientY - top];
}
function press(event) {
  const [x, y] = pixel(event), isFoot = y > G.map;
  hold = { x, from: now.from, to: now.to, isFoot, isChoice: isFoot || event.shiftKey, isMoved: false };
  picture.setPointerCapture(event.pointerId);
}
function hover(event) {
  const [x] = pixel(event);
  if (hold && Math.abs(x - hold.x) > 3) hold.isMoved = true;
  if (hold && hold.isMoved) { drag(x); return; }
  now.at = within(atX(x), now.from, now.to);
  cursor();
}
function drag(x) {
  const by = (hold.x - x) / pane() * (hold.to - hold.from);
  const [top, bottom] = hold.isFoot ? [G.map, G.map + 32] : [G.top, G.axis];
  if (hold.isChoice) $('cursor').innerHTML = path('chosen', `M${hold.x} ${top}H${x}V${bottom}H${hold.x}z`);
  else show(hold.from + by, hold.to + by);
}
function release(event) {
  const was = hold, [x] = pixel(event);
  hold = null;
  if (!was) return;
  const back = was.isFoot ? map.back : atX, ends = [back(x), back(was.x)];
  if (was.isMoved) { if (was.isChoice) show(min(...ends), max(...ends)); } else if (was.isFoot) showAbout(ends[0]);
  else point(event, x);
}
// A click chooses a mark or a plan, elsewhere the moment.
function point({ clientX, clientY }, x) {
  const all = document.elementsFromPoint(clientX, clientY), what = '#picture [data-row], #picture [data-plan]';
  const hit = all.map(it => it.closest(what)).find(it => it);
  if (hit && hit.dataset.row) pick(+hit.dataset.row, true);
  else if (hit) choosePlan(+hit.dataset.plan);
  else { now.at = atX(x); cursor(); }
}
function wheel(event) {
  event.preventDefault();
  zoom(Math.exp(within(event.deltaY, -80, 80) * .004), atX(pixel(event)[0]));
}

// ---- Controls ----

function legend() {
  const item = (inner, words, box = '-10 -7 20 14') => `<li><svg viewBox="${box}" aria-hidden="true">${inner}</svg>${words}`;
  const line = (name, d) => item(path(`line ${name}`, d), `best ${name}`, '0 0 20 12');
  const strip = (name, words = name) => item(`<rect class="strip ${name}" width="20" height="12"/>`, words, '0 0 20 12');
  const used = new Set(range(0, trades.n).map(markOf));
  const mark = (name, words) => used.has(name) ? item(path(`mark ${name}`, SHAPES[name]), words) : '';
  $('legend').innerHTML = line('offer', 'M0 3H10V6H20') + line('bid', 'M0 9H10V6H20') + strip('locked') + strip('crossed') +
    strip('one', 'one side or none') + GROUPS.map((words, i) => mark(`g${i}`, `flagged, ${words}`)).join('') +
    (trades.kind.includes(PERHAPS) ? '<li>dashed: perhaps' : '') + mark('clean', 'execution, not flagged') +
    (plans.n ? item('<circle class="leg" r="5"/>', 'leg of a plan') + item(path('over', SHAPES.g1), 'passed over') : '');
}
// A choice of what the table shows. In brackets is how many traded through.
function addFilter(words, key, options) {
  const choice = make('select', { id: `filter-${key}`, onchange: () => { filters[key] = choice.value; filter(); } });
  const box = make('label', { title: 'In brackets: traded through' });
  choice.add(new Option('all', ''));
  for (const [name, count, value = name] of options)
    choice.add(new Option(count >= 0 ? `${name} (${commas(count)})` : name, value));
  box.append(`${words} `, choice);
  if (options.length) $('filters').append(box);
}
function makeFilters() {
  const rows = range(0, trades.n), count = test => rows.filter(test).length, through = isKind(THROUGH);
  addFilter('Finding', 'kind', Object.entries(KIND_FILTERS).map(([name, test]) => [name, count(test)]));
  // The names that are there, each with the executions under it that traded through.
  const counted = (of, names) => {
    const found = new Map();
    for (const row of rows.filter(through)) for (const name of of(row)) found.set(name, (found.get(name) || 0) + 1);
    return [...new Set(names)].sort().map(name => [name, found.get(name) || 0]);
  };
  const places = name => [...new Set(trades[name])], half = row => clock(floor(trades.time[row] / HALF) * HALF).slice(0, 5);
  addFilter('Exception', 'cause', counted(causesOf, rows.filter(isFlagged).flatMap(causesOf)));
  addFilter('Executed on', 'by', counted(row => [venueOf(row)], places('by').map(it => data.names[it] || '(none)')));
  if (data.symbols.length > 1)
    addFilter('Symbol', 'symbol', counted(row => [symbolOf(row)], places('day').map(it => data.symbols[it])));
  const halves = [...new Set(Array.from(trades.time, it => clock(floor(it / HALF) * HALF).slice(0, 5)))];
  if (days.timed.includes(1))
    addFilter('Half hour', 'half', counted(row => [half(row)], halves).map(it => [...it, timeOf(`${it[0]}:00`) / HALF]));
}
function makeTable() {
  const head = $('scroll').querySelector('thead'), id = make('input', { type: 'search', id: 'filter-id', placeholder: 'id',
    ariaLabel: 'Part of an id', oninput: () => { filters.id = id.value; filter(); } });
  const save = () => give('findings.csv', 'text/csv', csv());
  $('filters').append(id, make('button', { id: 'csv', textContent: 'save CSV', onclick: save }));
  head.innerHTML = '<tr aria-rowindex="1">' + columnsShown().map(it =>
    `<th${it.isLeft ? ' class="left"' : ''} scope="col" data-name="${it.name}"><button></button>`).join('');
  const mark = () => head.querySelectorAll('th').forEach(it => {
    const way = it.dataset.name === sort.name ? sort.way : 0;
    it.setAttribute('aria-sort', way > 0 ? 'ascending' : way < 0 ? 'descending' : 'none');
    it.firstChild.textContent = it.dataset.name + (way > 0 ? ' \u25b4' : way < 0 ? ' \u25be' : '');
  });
  head.onclick = event => {
    const it = event.target.closest('th');
    if (!it) return;
    sort = { name: it.dataset.name, way: sort.name === it.dataset.name ? -sort.way : 1 };
    mark();
    filter();
  };
  mark();
}
function tableHands() {
  const box = $('scroll');
  box.querySelector('tbody').onclick = event => {
    const it = event.target.closest('tr');
    if (it && it.dataset.row) pick(+it.dataset.row);
  };
  box.onscroll = drawRows;
  box.onkeydown = event => {
    const by = { ArrowDown: 1, ArrowUp: -1 }[event.key];
    if (!by || !view.length) return;
    event.preventDefault();
    pick(view[within(view.indexOf(now.row) + by, 0, view.length - 1)], true);
  };
}
function hands() {
  const on = (id, act) => { $(id).onclick = act; };
  Object.assign(picture, { onpointerdown: press, onpointermove: hover, onpointerup: release, ondblclick: all,
    onpointercancel: () => { hold = null; } });
  picture.addEventListener('wheel', wheel, { passive: false });
  $('figure').onkeydown = keys;
  on('by-time', () => changeAxis('time'));
  on('by-version', () => changeAxis('version'));
  on('in', () => zoom(.5));
  on('out', () => zoom(2));
  on('all', all);
  on('next', () => goFlagged(1));
  on('before', () => goFlagged(-1));
  on('save', () => give(`${data.symbols[now.symbol]}.svg`, 'image/svg+xml', svg()));
  on('plans', event => { const it = event.target.closest('button'); if (it) choosePlan(+it.dataset.plan); });
  $('symbol').onchange = event => changeSymbol(+event.target.value);
  $('clean').onchange = $('trim').onchange = drawSoon;
  $('own').onchange = event => { now.own = +event.target.value; drawSoon(); };
  addEventListener('resize', () => { layout(); drawSoon(); });
  addEventListener('beforeprint', () => { layout(); draw(); });
  addEventListener('hashchange', () => { readAddress(); refresh(); });
}
// A page that can't be shown says why. Other faults go on to the console.
function damage(error) {
  $('app').hidden = true;
  $('damaged').hidden = false;
  $('damaged').className = 'now';
  $('damaged').textContent = `The data of this page is damaged: ${error.message}. Write the file again.`;
  if (!(error instanceof Damaged)) throw error;
}
const safely = act => { try { act(); } catch (error) { damage(error); } };
function begin() {
  readData();
  data.symbols.forEach((name, i) => $('symbol').add(new Option(name, i)));
  data.names.forEach((name, i) => { if (!i || data.board.n) $('own').add(new Option(name || 'none', i)); });
  $('about').textContent = range(0, data.about.length / 2).map(i => `${data.about[2 * i]} ${data.about[2 * i + 1]}`).join(', ');
  // At first it shows the first plan that is doubted.
  const first = max(0, [...plans.verdict].findIndex(it => data.words[it].startsWith('DOUBT')));
  now.symbol = plans.n ? plans.day[first] : 0;
  readAddress();
  if (!location.hash && plans.n) Object.assign(now, { plan: first, at: placeOfPlan(first) });
  $('damaged').hidden = true;
  $('app').hidden = false;
  layout();
  legend();
  hands();
  redraw();
  if (trades.n) { makeFilters(); makeTable(); tableHands(); filter(); } else $('findings').hidden = true;
  // The board comes after the first picture: its columns are read when they are first asked for.
  requestAnimationFrame(() => setTimeout(() => safely(() => { isReady = true; cursor(); })));
}
safely(begin);
});
</script>
<script type="application/json" id="data">"#;

/// What follows the data.
pub(crate) const TAIL: &str = r#"</script>
</body>
</html>
"#;
