//! The page around a history. `tools/embed` joins it of the files in `page`, and so compares it.

/// What stands before the rows of a history.
pub(crate) const HEAD: &str = r###"<!DOCTYPE html>
<html lang="en">
<head>
<meta charset="utf-8">
<meta http-equiv="Content-Security-Policy"
  content="default-src 'none'; script-src 'unsafe-inline'; style-src 'unsafe-inline'">
<meta name="viewport" content="width=device-width, initial-scale=1">
<title>A history of cmwq</title>
<style>
:root {
  color-scheme: light;
  --text: rgb(20, 22, 26);
  --page: rgb(255, 255, 255);
  --faint: rgb(105, 110, 120);
  --line: rgba(20, 22, 26, 0.15);
  --hatch: rgba(20, 22, 26, 0.55);
  --open: rgb(196, 208, 222);
  --active: rgb(110, 145, 185);
  --width: rgb(205, 60, 60);
  --chosen: rgba(255, 170, 0, 0.3);
  --accent: rgb(30, 90, 170);
  --item-0: rgb(143, 184, 222);
  --item-1: rgb(250, 190, 120);
  --item-2: rgb(150, 205, 140);
  --item-3: rgb(240, 150, 145);
  --item-4: rgb(150, 210, 205);
  --item-5: rgb(205, 170, 205);
  --item-6: rgb(200, 170, 150);
  --item-7: rgb(240, 220, 120);
  --item-8: rgb(255, 190, 200);
  --item-9: rgb(190, 190, 190);
}

:root[data-theme="dark"] {
  color-scheme: dark;
  --text: rgb(230, 230, 230);
  --page: rgb(27, 29, 33);
  --faint: rgb(160, 165, 175);
  --line: rgba(230, 230, 230, 0.18);
  --hatch: rgba(230, 230, 230, 0.55);
  --open: rgb(72, 84, 100);
  --active: rgb(86, 118, 156);
  --width: rgb(235, 110, 110);
  --chosen: rgba(255, 190, 60, 0.3);
  --accent: rgb(120, 175, 245);
  --item-0: rgb(62, 100, 137);
  --item-1: rgb(150, 95, 35);
  --item-2: rgb(62, 112, 55);
  --item-3: rgb(150, 65, 62);
  --item-4: rgb(50, 115, 110);
  --item-5: rgb(115, 80, 115);
  --item-6: rgb(112, 84, 66);
  --item-7: rgb(130, 112, 25);
  --item-8: rgb(155, 90, 102);
  --item-9: rgb(100, 100, 100);
}

* {
  box-sizing: border-box;
}

body {
  margin: 0;
  background: var(--page);
  color: var(--text);
  font: 14px sans-serif;
}

header {
  display: flex;
  flex-wrap: wrap;
  align-items: center;
  gap: 6px 16px;
  padding: 8px 12px;
  border-bottom: 1px solid var(--line);
}

h1 {
  margin: 0;
  font-size: 16px;
}

h2 {
  font-size: 15px;
}

header p,
header form {
  margin: 0;
}

main {
  padding: 0 12px 24px;
}

a,
.to {
  color: var(--accent);
}

input,
select,
button {
  font: inherit;
}

input:invalid {
  outline: 2px solid var(--width);
}

.to {
  padding: 0;
  border: 0;
  background: none;
  text-decoration: underline;
  cursor: pointer;
}

canvas {
  display: block;
  width: 100%;
}

#overview {
  height: 28px;
  margin: 8px 0;
  cursor: ew-resize;
  touch-action: none;
}

#chart {
  max-height: 65vh;
  overflow: hidden auto;
  border: 1px solid var(--line);
  cursor: grab;
  touch-action: none;
}

#chart:focus-visible,
.to:focus-visible {
  outline: 2px solid var(--accent);
}

#canvas {
  position: sticky;
  top: 0;
}

#window {
  min-height: 1.2em;
  color: var(--faint);
}

#chosen code {
  font-size: 15px;
}

#chosen ul {
  margin: 4px 0 12px;
  padding-left: 20px;
}

table {
  margin: 12px 0;
  border-collapse: collapse;
  font-variant-numeric: tabular-nums;
}

caption {
  padding: 4px 0;
  text-align: left;
  font-weight: bold;
}

th,
td {
  padding: 2px 12px 2px 0;
  border-bottom: 1px solid var(--line);
  text-align: left;
  white-space: nowrap;
}
</style>
</head>
<body>
<header>
<h1>A history of cmwq</h1>
<p id="summary">This page reads its history ..</p>
<form id="search">
<label>Entry <input id="entry" inputmode="numeric" size="8" autocomplete="off"></label>
<button>Go</button>
</form>
<form id="filters">
<label>Item <input id="item" inputmode="numeric" size="5" autocomplete="off"></label>
<label>Queue <input id="queue" inputmode="numeric" size="4" autocomplete="off"></label>
<label>Caller <input id="caller" inputmode="numeric" size="4" autocomplete="off"></label>
<button type="reset">All</button>
</form>
<div role="group" aria-label="Window">
<button id="closer" title="Zoom in: +" aria-label="Zoom in">+</button>
<button id="wider" title="Zoom out: -" aria-label="Zoom out">&minus;</button>
<button id="whole" title="The whole history: 0">Whole</button>
</div>
<label>Colours <select id="theme">
<option value="">as the system</option><option value="light">light</option><option value="dark">dark</option>
</select></label>
</header>
<main>
<canvas id="overview" aria-hidden="true"></canvas>
<div id="chart" tabindex="0" role="group" aria-label="Chart of the window" aria-describedby="window keys">
<div id="rows"><canvas id="canvas" aria-hidden="true"></canvas></div>
</div>
<p id="window" role="status"></p>
<section id="chosen" aria-live="polite" aria-label="The chosen entry"></section>
<details id="help">
<summary>Keys, and what is drawn</summary>
<p id="keys">The wheel zooms, with Shift it moves, and over the names it scrolls the rows. Dragging moves. Left and
Right move, Up and Down scroll the rows, + and - zoom, 0 shows the whole history, Home and End its first and last
entries, N and P choose the next and the previous entry that the filters let through, and / goes to the number of an
entry.</p>
<p>Each entry is a column. A caller has a mark for each of its entries: a triangle that points down queued an item, a
hollow diamond delayed one, a filled diamond fired one, a cross cancelled one, a triangle that points right began to
wait, a square changed a width, froze or thawed, a bar let ticks go by, and a dot was refused or had nothing to do. Its
waits are the bars below, with a ring where the end was asked for in vain, and a disc where it came. In a worker's row a
bar is a run, hatched where it sleeps; what else the worker did is below. The last digit of the item chooses the
colour. The lower rows show how many items each queue has open (pale) and active (dark) on a CPU, and its width
(dashed, or dotted above the row if it is greater than what the row shows).</p>
</details>
<section aria-labelledby="tables">
<h2 id="tables">The window as tables</h2>
<table id="entries"><caption></caption><thead><tr><th scope="col">Entry</th><th scope="col">Tick</th>
<th scope="col">Who</th><th scope="col">Serial</th><th scope="col">Call</th><th scope="col">Reply</th></tr></thead>
<tbody></tbody></table>
<table id="spans"><caption></caption><thead><tr><th scope="col">Who</th><th scope="col">What</th>
<th scope="col">From</th><th scope="col">To</th><th scope="col">Ended</th></tr></thead><tbody></tbody></table>
<table id="levels"><caption></caption><thead><tr><th scope="col">Queue</th><th scope="col">CPU</th>
<th scope="col">From</th><th scope="col">Open</th><th scope="col">Active</th><th scope="col">Width</th></tr></thead>
<tbody></tbody></table>
</section>
</main>
<noscript>This page needs JavaScript. It loads nothing from elsewhere.</noscript>
<script>
"use strict";

// The calls in the order of their numbers, each with a letter for each number that follows in a row: i an item, q a
// queue, c a CPU, k the number of an entry, and n any other number.
const CALLS = [
  ["queue", "iqc"], ["delay", "iqcn"], ["modify", "iqcn"], ["cancel", "i"], ["tick", "n"], ["fire", ""], ["flush", "q"],
  ["drain", "q"], ["flush_item", "i"], ["flush_delayed", "i"], ["cancel_sync", "i"], ["end", "k"], ["take", ""],
  ["finish", ""], ["sleep", ""], ["wake", ""], ["retire", ""], ["set_max", "qn"], ["freeze", ""], ["thaw", ""],
  ["destroy", "q"],
];

// The replies in the order of their numbers, with # for each number that follows in a row, and what the entry did.
const REPLIES = [
  ["yes #", "queued"], ["booked #", "delayed"], ["again #", "queued"], ["rebooked #", "delayed"], ["no", "refused"],
  ["foreign", "refused"], ["draining", "refused"], ["misuse", "refused"], ["cancelled #", "cancelled"],
  ["unbooked", "cancelled"], ["now #", "tick"], ["fired # #", "fired"], ["nothing", "refused"], ["ticket #", "waits"],
  ["ticket # queued", "queued"], ["ticket # cancelled #", "cancelled"], ["ticket # unbooked", "cancelled"],
  ["ticket # no", "waits"], ["idle", "refused"], ["crowded", "refused"], ["done", "done"], ["waiting #", "waiting"],
  ["started #", "started"], ["started # enlist #", "started"], ["held", "refused"], ["finished #", "finished"],
  ["slept", "slept"], ["woke", "woke"], ["retired", "changed"], ["kept", "refused"], ["width #", "changed"],
  ["frozen", "changed"], ["thawed", "changed"], ["gone", "refused"], ["timers", "refused"],
];

const numbersIn = (text) => text.split("#").length - 1;
const replyNumbers = REPLIES.map(([text]) => numbersIn(text));
const replySigns = REPLIES.map(([, sign]) => sign);
const replyNamed = (name) => REPLIES.findIndex(([other]) => other === name);

const REPLY = {
  yes: replyNamed("yes #"), again: replyNamed("again #"), booked: replyNamed("booked #"),
  rebooked: replyNamed("rebooked #"), now: replyNamed("now #"), fired: replyNamed("fired # #"),
  ticket: replyNamed("ticket #"), queued: replyNamed("ticket # queued"), lastTicket: replyNamed("ticket # no"),
  done: replyNamed("done"), waiting: replyNamed("waiting #"), cancelled: replyNamed("cancelled #"),
  started: replyNamed("started #"), enlisted: replyNamed("started # enlist #"), finished: replyNamed("finished #"),
};

// Whether a reply tells of a queueing or a ticket that its entry opened.
function opensOne(reply) {
  return reply === REPLY.yes || reply === REPLY.again || (reply >= REPLY.ticket && reply <= REPLY.lastTicket);
}

// Workers have the numbers from here on, those of a pool of 64 after one another; callers have those below.
const FIRST_WORKER = 256;

const NONE = -1;

// The row of a place is as high as the most that are ever open there, or as so many.
const LEAST_SCALE = 4;

function nameOf(who) {
  if (who < FIRST_WORKER) {
    return `c${who}`;
  }
  const pool = Math.floor((who - FIRST_WORKER) / 64);
  return `w${Math.floor(pool / 2)}${pool % 2 ? "h" : "n"}${(who - FIRST_WORKER) % 64}`;
}

// The names that a script gives to items, queues and callers. What has none goes by its number.
class Names {
  constructor(script) {
    this.script = script;
  }

  of(list, number) {
    const name = this.script?.[list]?.[number]?.name;
    return typeof name === "string" ? name : undefined;
  }

  item(number) {
    return this.of("items", number) ?? String(number);
  }

  queue(number) {
    return this.of("queues", number) ?? String(number);
  }

  who(number) {
    const name = number < FIRST_WORKER ? this.of("callers", number) : undefined;
    return name === undefined ? nameOf(number) : `${nameOf(number)} (${name})`;
  }

  place(queue, cpu) {
    return `${this.of("queues", queue) ?? `q${queue}`} CPU ${cpu}`;
  }
}

// Reads numbers, each of which one space or line feed ends.
class Rows {
  constructor(bytes) {
    this.bytes = bytes;
    this.at = 0;
  }

  number() {
    const bytes = this.bytes;
    let number = 0;
    let byte = bytes[this.at++];
    while (byte >= 48) {
      number = number * 10 + (byte - 48);
      byte = bytes[this.at++];
    }
    return number;
  }
}

// Puts what has a key into the order of the keys, and keeps the order of those with the same key. `starts[k]` is where
// those with the key k begin.
function grouped(keys, count) {
  const starts = new Uint32Array(count + 1);
  for (let at = 0; at < keys.length; at++) {
    starts[keys[at] + 1]++;
  }
  for (let key = 0; key < count; key++) {
    starts[key + 1] += starts[key];
  }
  const next = starts.slice();
  const order = new Uint32Array(keys.length);
  for (let at = 0; at < keys.length; at++) {
    order[next[keys[at]]++] = at;
  }
  return { starts, order };
}

// The first index from `low` on, below `high`, at which a test that stays true becomes true, or `high`.
function firstIndex(low, high, test) {
  while (low < high) {
    const middle = (low + high) >>> 1;
    if (test(middle)) {
      high = middle;
    } else {
      low = middle + 1;
    }
  }
  return low;
}

// What goes on from one entry up to and with another, as a run, a sleep or a wait. One that goes on at the end of the
// history has the last entry as `to`.
class Spans {
  constructor(count) {
    this.lane = new Uint32Array(count);
    this.about = new Uint32Array(count);
    this.from = new Uint32Array(count);
    this.to = new Uint32Array(count);
    this.goesOn = new Uint8Array(count);
  }

  get length() {
    return this.from.length;
  }

  set(at, lane, about, from, to, last) {
    this.lane[at] = lane;
    this.about[at] = about;
    this.from[at] = from;
    this.goesOn[at] = to === 0 ? 1 : 0;
    this.to[at] = to === 0 ? last : to;
  }

  group(lanes) {
    Object.assign(this, grouped(this.lane, lanes));
  }

  // The positions in `order` of those of a lane that overlap the entries from one up to another.
  within(lane, from, to) {
    const { starts, order } = this;
    const first = firstIndex(starts[lane], starts[lane + 1], (at) => this.to[order[at]] >= from);
    return [first, firstIndex(first, starts[lane + 1], (at) => this.from[order[at]] >= to)];
  }

  // The one of a lane in which an entry is, or none.
  at(lane, entry) {
    const [first, end] = this.within(lane, entry, entry + 1);
    return first < end ? this.order[first] : NONE;
  }
}

// A history as it stands in the rows: first how much there is of everything and which entries to show first, and then a
// row for each queue, entry, wait, run, sleep and level.
class History {
  constructor(bytes, names) {
    const rows = new Rows(bytes);
    this.bytes = bytes;
    this.names = names;
    for (const name of ["cpus", "workers", "callers", "items", "queues", "length"]) {
      this[name] = rows.number();
    }
    const [waits, runs, sleeps, levels] = [rows.number(), rows.number(), rows.number(), rows.number()];
    this.window = [rows.number(), rows.number()];
    for (let queue = 0; queue < this.queues; queue++) {
      for (let part = 0; part < 4; part++) {
        rows.number();
      }
    }
    this.readEntries(rows);
    this.readWaits(rows, waits);
    this.readRuns(rows, runs);
    this.readSleeps(rows, sleeps);
    this.readLevels(rows, levels);
  }

  readEntries(rows) {
    const length = this.length;
    this.start = new Uint32Array(length);
    this.who = new Uint16Array(length);
    this.call = new Uint8Array(length);
    this.reply = new Uint8Array(length);
    this.item = new Int32Array(length).fill(NONE);
    this.queue = new Int16Array(length).fill(NONE);
    // The entry that opened what this one is about: a queueing or a ticket.
    this.about = new Int32Array(length).fill(NONE);
    // The entries that let ticks go by.
    this.ticks = [];
    // The last entry that booked each item, and the queueing that each worker runs.
    this.bookings = new Int32Array(65536).fill(NONE);
    this.running = new Int32Array(65536).fill(NONE);
    for (let entry = 0; entry < length; entry++) {
      this.start[entry] = rows.at;
      this.who[entry] = rows.number();
      this.call[entry] = rows.number();
      const letters = CALLS[this.call[entry]][1];
      for (let at = 0; at < letters.length; at++) {
        const number = rows.number();
        if (letters[at] === "i") {
          this.item[entry] = number;
        } else if (letters[at] === "q") {
          this.queue[entry] = number;
        } else if (letters[at] === "k" && number < entry) {
          // (an end that is refused may name any number)
          this.about[entry] = number;
        }
      }
      this.reply[entry] = rows.number();
      const count = replyNumbers[this.reply[entry]];
      const first = count > 0 ? rows.number() : 0;
      if (count > 1) {
        rows.number();
      }
      this.follow(entry, first);
    }
    this.groupEntries();
  }

  // Finds what an entry is about, whose row was read. The first number of its reply is given.
  follow(entry, first) {
    const { who, reply, item, queue, about, bookings, running } = this;
    switch (reply[entry]) {
      case REPLY.now:
        this.ticks.push(entry);
        break;
      case REPLY.booked:
      case REPLY.rebooked:
        bookings[item[entry]] = entry;
        break;
      case REPLY.fired:
        item[entry] = first;
        about[entry] = entry;
        break;
      case REPLY.cancelled:
        about[entry] = first;
        break;
      case REPLY.started:
      case REPLY.enlisted:
        about[entry] = first;
        running[who[entry]] = first;
        break;
      case REPLY.finished:
        about[entry] = first;
        running[who[entry]] = NONE;
        break;
      default:
        if (opensOne(reply[entry])) {
          about[entry] = entry;
        }
    }
    // What else a worker does belongs to its run.
    if (about[entry] === NONE && who[entry] >= FIRST_WORKER) {
      about[entry] = running[who[entry]];
    }
    // What is fired was booked for a queue; what is about another entry is about its item and queue.
    if (reply[entry] === REPLY.fired || reply[entry] === REPLY.queued) {
      queue[entry] = queue[bookings[item[entry]]];
    } else if (about[entry] !== NONE) {
      item[entry] = item[entry] === NONE ? item[about[entry]] : item[entry];
      queue[entry] = queue[entry] === NONE ? queue[about[entry]] : queue[entry];
    }
  }

  // Gives each caller and worker that has entries a lane, callers first.
  groupEntries() {
    const used = new Uint8Array(65536);
    for (let entry = 0; entry < this.length; entry++) {
      used[this.who[entry]] = 1;
    }
    this.laneOf = new Int32Array(65536).fill(NONE);
    this.lanes = [];
    used.forEach((isUsed, who) => {
      if (isUsed) {
        this.laneOf[who] = this.lanes.length;
        this.lanes.push({ who, name: nameOf(who), label: this.names.who(who), waitRows: 0, firstWaitRow: 0 });
      }
    });
    const lanes = new Uint16Array(this.length);
    for (let entry = 0; entry < this.length; entry++) {
      lanes[entry] = this.laneOf[this.who[entry]];
    }
    Object.assign(this, grouped(lanes, this.lanes.length));
  }

  // The lane of a wait is a row of its caller's waits. The rows of all callers are numbered one after the other.
  readWaits(rows, count) {
    this.waits = new Spans(count);
    const rowsOf = new Uint32Array(count);
    for (let at = 0; at < count; at++) {
      const lane = this.laneOf[rows.number()];
      rowsOf[at] = rows.number();
      const from = rows.number();
      this.waits.set(at, lane, from, from, rows.number(), this.length - 1);
      this.lanes[lane].waitRows = Math.max(this.lanes[lane].waitRows, rowsOf[at] + 1);
    }
    let waitRows = 0;
    for (const lane of this.lanes) {
      lane.firstWaitRow = waitRows;
      waitRows += lane.waitRows;
    }
    this.waitOf = new Int32Array(this.length).fill(NONE);
    for (let at = 0; at < count; at++) {
      this.waits.lane[at] = this.lanes[this.waits.lane[at]].firstWaitRow + rowsOf[at];
      this.waitOf[this.waits.from[at]] = at;
    }
    this.waits.group(waitRows);
  }

  readRuns(rows, count) {
    this.runs = new Spans(count);
    this.runOf = new Int32Array(this.length).fill(NONE);
    for (let at = 0; at < count; at++) {
      const lane = this.laneOf[rows.number()];
      const queueing = rows.number();
      const from = rows.number();
      this.runs.set(at, lane, queueing, from, rows.number(), this.length - 1);
      this.runOf[queueing] = at;
    }
    this.runs.group(this.lanes.length);
  }

  // A sleep is about the queueing whose run sleeps.
  readSleeps(rows, count) {
    this.sleeps = new Spans(count);
    for (let at = 0; at < count; at++) {
      const lane = this.laneOf[rows.number()];
      const from = rows.number();
      this.sleeps.set(at, lane, Math.max(this.about[from], 0), from, rows.number(), this.length - 1);
    }
    this.sleeps.group(this.lanes.length);
  }

  readLevels(rows, count) {
    const names = ["queue", "cpu", "from", "open", "active", "width"];
    const levels = { length: count };
    names.forEach((name) => {
      levels[name] = new Uint32Array(count);
    });
    const places = new Map();
    const keys = new Uint32Array(count);
    for (let at = 0; at < count; at++) {
      for (let part = 0; part < names.length; part++) {
        levels[names[part]][at] = rows.number();
      }
      keys[at] = levels.queue[at] * 64 + levels.cpu[at];
      places.set(keys[at], Math.max(places.get(keys[at]) ?? LEAST_SCALE, levels.open[at]));
    }
    const sorted = [...places.keys()].sort((one, other) => one - other);
    const indexes = new Map(sorted.map((key, index) => [key, index]));
    this.places = sorted.map((key) => {
      const [queue, cpu] = [Math.floor(key / 64), key % 64];
      return { queue, cpu, label: this.names.place(queue, cpu), scale: places.get(key) };
    });
    for (let at = 0; at < count; at++) {
      keys[at] = indexes.get(keys[at]);
    }
    this.levels = Object.assign(levels, grouped(keys, sorted.length));
  }

  // The positions in `levels.order` of the levels of a place while the entries from one up to another stand.
  levelsWithin(place, from, to) {
    const { starts, order } = this.levels;
    const after = firstIndex(starts[place], starts[place + 1], (at) => this.levels.from[order[at]] > from);
    const end = firstIndex(after, starts[place + 1], (at) => this.levels.from[order[at]] >= to);
    return [Math.max(starts[place], after - 1), end];
  }

  // The positions in `order` of a lane's entries from one up to another.
  entriesWithin(lane, from, to) {
    const { starts, order } = this;
    const first = firstIndex(starts[lane], starts[lane + 1], (at) => order[at] >= from);
    return [first, firstIndex(first, starts[lane + 1], (at) => order[at] >= to)];
  }

  // The row of an entry, in texts.
  rowOf(entry) {
    const end = this.bytes.indexOf(10, this.start[entry]);
    return String.fromCharCode(...this.bytes.subarray(this.start[entry], end)).split(" ");
  }

  serialOf(entry) {
    const lane = this.laneOf[this.who[entry]];
    return this.entriesWithin(lane, entry, entry + 1)[0] - this.starts[lane];
  }

  nameAt(entry) {
    return this.lanes[this.laneOf[this.who[entry]]].name;
  }

  callText(entry) {
    const [name, letters] = CALLS[this.call[entry]];
    return [name, ...this.rowOf(entry).slice(2, 2 + letters.length)].join(" ");
  }

  replyText(entry) {
    const [text] = REPLIES[this.reply[entry]];
    const numbers = this.rowOf(entry).slice(3 + CALLS[this.call[entry]][1].length);
    return text.replaceAll("#", () => numbers.shift());
  }

  // The line of an entry in the history.
  textOf(entry) {
    return `${this.nameAt(entry)} ${this.serialOf(entry)} ${this.callText(entry)} = ${this.replyText(entry)}`;
  }

  // How many ticks have gone by after an entry, as a text.
  tickAt(entry) {
    const after = firstIndex(0, this.ticks.length, (at) => this.ticks[at] > entry);
    return after === 0 ? "0" : this.rowOf(this.ticks[after - 1]).at(-1);
  }
}
</script>
<script>
"use strict";

const GUTTER = 92;
const AXIS = 26;
const WAIT_ROW = 9;
const MARK_ROW = 18;
const BAR = 16;
const PLACE_ROW = 34;
const LEVEL_HEIGHT = 26;
const GAP = 8;

// From how many pixels an entry on there are marks of several forms, and numbers of items beside them.
const MARKS_FROM = 5;
const LABELS_FROM = 22;

// At most so many pixels an entry.
const WIDEST = 48;

const COLOURS = ["text", "page", "faint", "line", "open", "active", "width", "chosen", "hatch"];

// The signs of entries that have no mark of their own: runs, sleeps and waits show them.
const UNMARKED = new Set(["started", "finished", "slept", "woke", "done", "waiting"]);

// The window: the entries from one up to another, which may begin and end inside of an entry.
class View {
  constructor(length, from, to) {
    this.length = length;
    this.show(from, to);
  }

  show(from, to) {
    const span = Math.min(Math.max(to - from, 1), Math.max(this.length, 1));
    this.from = Math.min(Math.max(from, 0), Math.max(this.length - span, 0));
    this.to = this.from + span;
  }

  get span() {
    return this.to - this.from;
  }

  zoom(factor, centre, least) {
    const span = Math.max(this.span * factor, least);
    const share = (centre - this.from) / this.span;
    this.show(centre - share * span, centre + (1 - share) * span);
  }

  // The whole entries: from the first that is shown, up to the first that is not.
  get entries() {
    return [Math.floor(this.from), Math.min(Math.ceil(this.to), this.length)];
  }
}

// Draws what a window shows of a history on a canvas, and finds what stands at a point of it.
class Chart {
  constructor(canvas, history, view) {
    this.canvas = canvas;
    this.context = canvas.getContext("2d");
    this.history = history;
    this.view = view;
    this.matches = null;
    this.chosen = NONE;
    this.top = 0;
    this.lay();
    this.takeColours();
  }

  // Stacks the rows: callers with their waits, workers, and queues on CPUs.
  lay() {
    const { lanes, places } = this.history;
    let top = 4;
    const next = (row, height) => {
      const placed = { ...row, top, height };
      top += height + GAP;
      return placed;
    };
    this.rows = lanes.map((lane, index) => {
      const isWorker = lane.who >= FIRST_WORKER;
      const height = isWorker ? BAR + MARK_ROW : MARK_ROW + lane.waitRows * WAIT_ROW;
      return next({ kind: isWorker ? "worker" : "caller", label: lane.label, index, lane }, height);
    });
    const rowOf = (place, index) => ({ kind: "place", label: place.label, index, place });
    this.rows.push(...places.map((place, index) => next(rowOf(place, index), PLACE_ROW)));
    this.height = top;
  }

  takeColours() {
    const style = getComputedStyle(document.documentElement);
    const colour = (name) => style.getPropertyValue(`--${name}`).trim();
    this.colours = Object.fromEntries(COLOURS.map((name) => [name, colour(name)]));
    this.itemColours = Array.from({ length: 10 }, (_, digit) => colour(`item-${digit}`));
    this.hatch = this.hatching();
  }

  hatching() {
    const tile = document.createElement("canvas");
    tile.width = tile.height = 6;
    const context = tile.getContext("2d");
    context.strokeStyle = this.colours.hatch;
    context.lineWidth = 1.5;
    context.beginPath();
    context.moveTo(-1, 7);
    context.lineTo(7, -1);
    context.moveTo(-1, 1);
    context.lineTo(1, -1);
    context.moveTo(5, 7);
    context.lineTo(7, 5);
    context.stroke();
    return this.context.createPattern(tile, "repeat");
  }

  // Fits the canvas to its place on the page, on screens of any resolution.
  resize() {
    const ratio = window.devicePixelRatio || 1;
    this.wide = this.canvas.clientWidth;
    this.high = this.canvas.clientHeight;
    this.canvas.width = Math.round(this.wide * ratio);
    this.canvas.height = Math.round(this.high * ratio);
    this.context.setTransform(ratio, 0, 0, ratio, 0, 0);
  }

  // How many pixels wide an entry is.
  get scale() {
    return (this.wide - GUTTER) / this.view.span;
  }

  get leastSpan() {
    return Math.min((this.wide - GUTTER) / WIDEST, Math.max(this.history.length, 1));
  }

  xOf(entry) {
    return GUTTER + (entry - this.view.from) * this.scale;
  }

  entryAt(x) {
    return this.view.from + (x - GUTTER) / this.scale;
  }

  isFaint(entry) {
    return this.matches !== null && entry !== NONE && this.matches[entry] === 0;
  }

  colourOf(item) {
    return item === NONE ? this.colours.text : this.itemColours[item % 10];
  }

  draw() {
    const { context, colours } = this;
    context.fillStyle = colours.page;
    context.fillRect(0, 0, this.wide, this.high);
    context.font = "11px sans-serif";
    context.textBaseline = "middle";
    const shown = this.rows.filter((row) => row.top + row.height >= this.top && row.top <= this.top + this.high);
    this.drawGrid();
    context.save();
    context.beginPath();
    context.rect(GUTTER, AXIS, this.wide - GUTTER, this.high - AXIS);
    context.clip();
    this.drawChosen();
    for (const row of shown) {
      const y = AXIS + row.top - this.top;
      if (row.kind === "place") {
        this.drawLevels(row, y);
      } else if (row.kind === "worker") {
        this.drawSpans(this.history.runs, row.index, y, BAR, (run) => this.runColour(run));
        this.drawSpans(this.history.sleeps, row.index, y, BAR, () => this.hatch);
        this.drawRunItems(row.index, y);
        this.drawMarks(row, y + BAR + MARK_ROW / 2);
      } else {
        this.drawMarks(row, y + MARK_ROW / 2);
        this.drawWaits(row, y + MARK_ROW);
      }
    }
    context.restore();
    this.drawNames(shown);
  }

  // The step between numbers of entries: 1, 2 or 5, or one of these with zeros, so that they stand apart.
  get step() {
    const least = 70 / this.scale;
    const power = 10 ** Math.max(Math.floor(Math.log10(least)), 0);
    return [1, 2, 5, 10].map((times) => times * power).find((step) => step >= least) ?? 10 * power;
  }

  drawGrid() {
    const { context, colours, step } = this;
    const [from, to] = this.view.entries;
    context.textAlign = "center";
    for (let entry = Math.ceil(from / step) * step; entry < to; entry += step) {
      const x = this.xOf(entry + 0.5);
      if (x < GUTTER) {
        continue;
      }
      context.fillStyle = colours.line;
      context.fillRect(x - 0.5, AXIS - 6, 1, this.high);
      context.fillStyle = colours.text;
      context.fillText(entry.toLocaleString("en"), Math.min(x, this.wide - 30), 10);
    }
  }

  drawChosen() {
    if (this.chosen !== NONE) {
      this.context.fillStyle = this.colours.chosen;
      this.context.fillRect(this.xOf(this.chosen), 0, Math.max(this.scale, 2), this.high);
    }
  }

  drawNames(shown) {
    const { context, colours } = this;
    context.save();
    context.beginPath();
    context.rect(0, AXIS, GUTTER, this.high - AXIS);
    context.clip();
    context.textAlign = "right";
    for (const row of shown) {
      const y = AXIS + row.top - this.top;
      context.fillStyle = colours.text;
      const label = this.cutTo(row.label, GUTTER - 12);
      context.fillText(label, GUTTER - 8, y + (row.kind === "caller" ? MARK_ROW / 2 : BAR / 2));
      if (row.kind === "place") {
        context.fillStyle = colours.faint;
        context.fillText(`0 to ${row.place.scale}`, GUTTER - 8, y + BAR / 2 + 13);
      }
    }
    context.restore();
  }

  runColour(run) {
    return this.colourOf(this.history.item[this.history.runs.about[run]]);
  }

  // Draws spans as bars. What would be narrower than a pixel is as wide as one, and of several in a pixel the first is
  // drawn.
  drawSpans(spans, lane, y, high, colour) {
    const { context, colours } = this;
    const [from, to] = this.view.entries;
    const [first, end] = spans.within(lane, from, to);
    const hasEdges = this.scale > 3;
    let drawnTo = 0;
    for (let at = first; at < end; at++) {
      const span = spans.order[at];
      const left = Math.max(Math.round(this.xOf(spans.from[span])), drawnTo, GUTTER - 2);
      const right = Math.min(Math.round(this.xOf(spans.to[span] + 1)), this.wide + 2);
      if (right <= left && drawnTo > left - 1) {
        continue;
      }
      const wide = Math.max(right - left, 1);
      context.globalAlpha = this.isFaint(spans.about[span]) ? 0.2 : 1;
      context.fillStyle = colour(span);
      context.fillRect(left, y, wide, high);
      if (hasEdges) {
        context.strokeStyle = colours.text;
        context.lineWidth = 0.7;
        context.strokeRect(left + 0.5, y + 0.5, wide - 1, high - 1);
      }
      drawnTo = left + wide;
    }
    context.globalAlpha = 1;
  }

  // A text, or as much of it as there is room for.
  cutTo(text, room) {
    const fits = (shown) => this.context.measureText(shown).width <= room;
    if (text.length <= 64 && fits(text)) {
      return text;
    }
    const letters = [...text.slice(0, 64)];
    while (letters.length > 1 && !fits(`${letters.join("")}\u2026`)) {
      letters.pop();
    }
    return `${letters.join("")}\u2026`;
  }

  // The item of each run: its name, or its number, if the bar is wide enough for one of them.
  drawRunItems(lane, y) {
    const { context, colours, history } = this;
    const { runs } = history;
    const [from, to] = this.view.entries;
    const [first, end] = runs.within(lane, from, to);
    if ((end - first) * 16 > this.wide) {
      return;
    }
    context.textAlign = "center";
    context.lineWidth = 3;
    for (let at = first; at < end; at++) {
      const run = runs.order[at];
      const left = Math.max(this.xOf(runs.from[run]), GUTTER);
      const right = Math.min(this.xOf(runs.to[run] + 1), this.wide);
      const item = history.item[runs.about[run]];
      const room = right - left - 6;
      const name = this.cutTo(history.names.item(item), room);
      const text = name.endsWith("\u2026") && name.length < 5 ? String(item) : name;
      if (room > context.measureText(text).width) {
        context.globalAlpha = this.isFaint(runs.about[run]) ? 0.3 : 1;
        context.strokeStyle = colours.page;
        context.strokeText(text, (left + right) / 2, y + BAR / 2 + 0.5);
        context.fillStyle = colours.text;
        context.fillText(text, (left + right) / 2, y + BAR / 2 + 0.5);
      }
    }
    context.globalAlpha = 1;
  }

  // The marks of a caller or a worker. Where entries are narrow, a mark is a line.
  drawMarks(row, y) {
    const { context, history, scale } = this;
    const [from, to] = this.view.entries;
    const [first, end] = history.entriesWithin(row.index, from, to);
    const hasLabels = scale >= LABELS_FROM;
    let drawn = NONE;
    for (let at = first; at < end; at++) {
      const entry = history.order[at];
      const sign = replySigns[history.reply[entry]];
      if (UNMARKED.has(sign)) {
        continue;
      }
      const x = this.xOf(entry + 0.5);
      if (scale < MARKS_FROM) {
        const left = Math.floor(x);
        if (left === drawn) {
          continue;
        }
        drawn = left;
        context.globalAlpha = this.isFaint(entry) ? 0.15 : 1;
        context.fillStyle = this.colourOf(sign === "refused" ? NONE : history.item[entry]);
        context.fillRect(left, y - 5, 1, 10);
        continue;
      }
      context.globalAlpha = this.isFaint(entry) ? 0.2 : 1;
      this.drawMark(sign, x, y, history.item[entry]);
      if (hasLabels && history.item[entry] !== NONE) {
        context.textAlign = "left";
        context.fillStyle = this.colours.text;
        context.fillText(history.item[entry], x + 6, y);
      }
    }
    context.globalAlpha = 1;
  }

  drawMark(sign, x, y, item) {
    const { context, colours } = this;
    const size = Math.min(4, this.scale / 2);
    const path = (...points) => {
      context.beginPath();
      points.forEach(([dx, dy], at) => {
        context[at === 0 ? "moveTo" : "lineTo"](x + dx * size, y + dy * size);
      });
      context.closePath();
    };
    context.strokeStyle = colours.text;
    context.lineWidth = 1;
    context.fillStyle = this.colourOf(item);
    switch (sign) {
      case "queued":
        path([-1, -1], [1, -1], [0, 1.2]);
        break;
      case "delayed":
      case "fired":
        path([0, -1.2], [1, 0], [0, 1.2], [-1, 0]);
        break;
      case "waits":
        path([-1, -1], [1, 0], [-1, 1]);
        context.fillStyle = colours.text;
        break;
      case "changed":
        path([-1, -1], [1, -1], [1, 1], [-1, 1]);
        break;
      case "cancelled":
        context.lineWidth = 2;
        path([-1, -1], [0, 0], [1, -1], [0, 0], [1, 1], [0, 0], [-1, 1], [0, 0]);
        context.stroke();
        return;
      case "tick":
        path([0, -2], [0, 2]);
        context.lineWidth = 1.5;
        context.stroke();
        return;
      case "done":
      case "waiting":
        context.beginPath();
        context.arc(x, y, size * 0.8, 0, 2 * Math.PI);
        context.fillStyle = colours.text;
        break;
      default:
        context.beginPath();
        context.arc(x, y, Math.min(1.6, size), 0, 2 * Math.PI);
        context.fillStyle = colours.faint;
        context.fill();
        return;
    }
    if (sign !== "delayed" && sign !== "changed" && sign !== "waiting") {
      context.fill();
    }
    context.stroke();
  }

  // The waits of a caller in their rows, and a ring or a dot for each entry that asked for the end of one.
  drawWaits(row, y) {
    const { history, colours, scale } = this;
    const { waits, reply, about, waitOf } = history;
    for (let at = 0; at < row.lane.waitRows; at++) {
      const top = y + at * WAIT_ROW + 1;
      this.drawSpans(waits, row.lane.firstWaitRow + at, top, WAIT_ROW - 3, () => colours.line);
    }
    if (scale < MARKS_FROM || row.lane.waitRows === 0) {
      return;
    }
    const [first, end] = history.entriesWithin(row.index, ...this.view.entries);
    for (let at = first; at < end; at++) {
      const entry = history.order[at];
      if (reply[entry] === REPLY.done || reply[entry] === REPLY.waiting) {
        const waitRow = waits.lane[waitOf[about[entry]]] - row.lane.firstWaitRow;
        this.context.globalAlpha = this.isFaint(entry) ? 0.2 : 1;
        const middle = y + (waitRow + 0.5) * WAIT_ROW - 0.5;
        this.drawMark(replySigns[reply[entry]], this.xOf(entry + 0.5), middle, NONE);
      }
    }
    this.context.globalAlpha = 1;
  }

  // How many are open and active on a place, and the width. Of several levels in a pixel the greatest numbers are
  // drawn.
  drawLevels(row, y) {
    const { context, colours, history } = this;
    const { levels } = history;
    const [from, to] = this.view.entries;
    const [first, end] = history.levelsWithin(row.index, from, to);
    const { scale } = row.place;
    const base = y + LEVEL_HEIGHT;
    const heightOf = (count) => Math.min(count / scale, 1) * LEVEL_HEIGHT;
    const draw = (left, right, open, active, width) => {
      const wide = right - left;
      context.fillStyle = colours.open;
      context.fillRect(left, base - heightOf(open), wide, heightOf(open));
      context.fillStyle = colours.active;
      context.fillRect(left, base - heightOf(active), wide, heightOf(active));
      context.fillStyle = colours.width;
      // A width beyond the scale is drawn as a dotted line above it.
      const isBeyond = width > scale;
      const line = isBeyond ? y - 2 : base - heightOf(width) - 0.5;
      for (let x = left; x < right; x += isBeyond ? 6 : 4) {
        context.fillRect(x, line, Math.min(isBeyond ? 1.5 : 2.5, right - x), 1.5);
      }
    };
    context.globalAlpha = this.filterQueue !== undefined && this.filterQueue !== row.place.queue ? 0.2 : 1;
    let [open, active, width, left] = [0, 0, 0, GUTTER];
    for (let at = first; at < end; at++) {
      const level = levels.order[at];
      const next = at + 1 < end ? levels.from[levels.order[at + 1]] : to;
      const right = Math.min(Math.round(this.xOf(next)), this.wide);
      open = Math.max(open, levels.open[level]);
      active = Math.max(active, levels.active[level]);
      width = levels.width[level];
      if (right > left) {
        draw(left, right, open, active, width);
        [open, active, left] = [0, 0, right];
      }
    }
    context.fillStyle = colours.line;
    context.fillRect(GUTTER, base, this.wide - GUTTER, 1);
    context.globalAlpha = 1;
  }

  // The entry that stands at a point, and the run, sleep or wait there.
  pick(x, y) {
    if (x < GUTTER || this.history.length === 0) {
      return null;
    }
    const column = Math.min(Math.max(Math.floor(this.entryAt(x)), 0), this.history.length - 1);
    const below = y - AXIS + this.top;
    const row = this.rows.find((it) => below >= it.top && below < it.top + it.height);
    if (row === undefined || row.kind === "place") {
      return column;
    }
    const { history } = this;
    const near = this.nearest(row.index, x);
    if (row.kind === "worker" && below < row.top + BAR) {
      const run = history.runs.at(row.index, column);
      return near ?? (run === NONE ? column : history.runs.from[run]);
    }
    if (row.kind === "caller" && below >= row.top + MARK_ROW) {
      const waitRow = row.lane.firstWaitRow + Math.floor((below - row.top - MARK_ROW) / WAIT_ROW);
      const wait = history.waits.at(waitRow, column);
      return wait === NONE ? column : history.waits.from[wait];
    }
    return near ?? column;
  }

  // The entry of a lane that is nearest to a place, if it is within some pixels.
  nearest(lane, x) {
    const reach = 7 / this.scale;
    const centre = this.entryAt(x) - 0.5;
    const [first, end] = this.history.entriesWithin(lane, centre - reach, centre + reach);
    let nearest = null;
    for (let at = first; at < end; at++) {
      const entry = this.history.order[at];
      if (nearest === null || Math.abs(entry - centre) < Math.abs(nearest - centre)) {
        nearest = entry;
      }
    }
    return nearest;
  }
}
</script>
<script>
"use strict";

// At most so many rows in a table.
const MOST_ROWS = 300;

const byId = (id) => document.getElementById(id);

function element(name, text, attributes = {}) {
  const made = document.createElement(name);
  made.textContent = text;
  Object.assign(made, attributes);
  return made;
}

const counted = (count, one, many = `${one}s`) => `${count.toLocaleString("en")} ${count === 1 ? one : many}`;

// The entries that the filters let through, as a byte for each, or null if they let all through. An entry is of an item
// or a queue if it is about one of its queueings or waits, and of a caller if it made it or what it is about.
function matching(history, { item, queue, caller }) {
  if (item === undefined && queue === undefined && caller === undefined) {
    return null;
  }
  const matches = new Uint8Array(history.length);
  for (let entry = 0; entry < history.length; entry++) {
    const about = history.about[entry];
    const isOfCaller = history.who[entry] === caller || (about !== NONE && history.who[about] === caller);
    matches[entry] = (item === undefined || history.item[entry] === item)
      && (queue === undefined || history.queue[entry] === queue)
      && (caller === undefined || isOfCaller) ? 1 : 0;
  }
  return matches;
}

// The window as tables of at most MOST_ROWS rows.
class Tables {
  constructor(history) {
    this.history = history;
  }

  show(view, matches) {
    const [from, to] = view.entries;
    this.from = from;
    this.to = to;
    this.isShown = matches === null ? () => true : (entry) => matches[entry] === 1;
    this.fill("entries", "entry", "entries", this.entries());
    this.fill("spans", "run, sleep or wait", "runs, sleeps and waits", this.spans());
    this.fill("levels", "level of a queue", "levels of queues", this.levels());
  }

  // Shows the first rows. There are too many to make all of them, so a list of lists says how many there are, and makes
  // the cells of each when asked.
  fill(id, one, many, lists) {
    const body = document.createDocumentFragment();
    let count = 0;
    for (const { first, end, isShown, cells } of lists) {
      for (let at = first; at < end; at++) {
        if (isShown(at)) {
          count++;
          if (count <= MOST_ROWS) {
            const row = document.createElement("tr");
            row.append(...cells(at).map((cell) => element("td", cell)));
            body.append(row);
          }
        }
      }
    }
    const table = byId(id);
    const shown = count > MOST_ROWS ? `the first ${MOST_ROWS} of ` : "";
    table.caption.textContent = `Entries ${this.from} up to ${this.to}: ${shown}${counted(count, one, many)}`;
    table.tBodies[0].replaceChildren(body);
  }

  entries() {
    const { history } = this;
    const cells = (entry) => [
      entry, history.tickAt(entry), history.nameAt(entry), history.serialOf(entry), history.callText(entry),
      history.replyText(entry),
    ];
    return [{ first: this.from, end: this.to, isShown: this.isShown, cells }];
  }

  spans() {
    const { waits, runs, sleeps, lanes, item, names } = this.history;
    const runOf = (queueing) => `runs item ${names.item(item[queueing])}, queueing ${queueing}`;
    return lanes.flatMap((lane, index) => {
      const rows = Array.from({ length: lane.waitRows }, (_, row) => lane.firstWaitRow + row);
      return [
        ...rows.map((row) => this.within(waits, row, lane.label, (ticket) => `waits, ticket ${ticket}`)),
        this.within(runs, index, lane.label, runOf),
        this.within(sleeps, index, lane.label, (queueing) => `sleeps, queueing ${queueing}`),
      ];
    });
  }

  within(spans, lane, name, what) {
    const [first, end] = spans.within(lane, this.from, this.to);
    const isShown = (at) => this.isShown(spans.about[spans.order[at]]);
    const cells = (at) => {
      const span = spans.order[at];
      return [name, what(spans.about[span]), spans.from[span], spans.to[span], spans.goesOn[span] ? "no" : "yes"];
    };
    return { first, end, isShown, cells };
  }

  levels() {
    const { levels, places } = this.history;
    return places.map((place, index) => {
      const [first, end] = this.history.levelsWithin(index, this.from, this.to);
      const cells = (at) => {
        const level = levels.order[at];
        const [from, open, active, width] = ["from", "open", "active", "width"].map((name) => levels[name][level]);
        return [this.history.names.queue(place.queue), place.cpu, from, open, active, width];
      };
      return { first, end, isShown: () => true, cells };
    });
  }
}

// The names of the caller, item and queue of an entry, as far as they have some.
function namedIn(history, entry) {
  const { names, who, item, queue } = history;
  const named = [
    ["caller", names.of("callers", who[entry] < FIRST_WORKER ? who[entry] : NONE)],
    ["item", names.of("items", item[entry])],
    ["queue", names.of("queues", queue[entry])],
  ];
  return named.filter(([, name]) => name !== undefined).map(([kind, name]) => `, ${kind} ${name}`).join("");
}

// What is told of the chosen entry: its line, and the entries that belong to the same queueing or wait.
function detailsOf(history, entry, choose) {
  const about = history.about[entry];
  const to = (text, other) => {
    const line = document.createElement("li");
    const onclick = () => choose(other);
    const button = element("button", `entry ${other}`, { className: "to", type: "button", onclick });
    line.append(`${text} at `, button, `: ${history.textOf(other)}`);
    return line;
  };
  const lines = [];
  if (about !== NONE) {
    const run = history.runOf[about];
    const wait = history.waitOf[about];
    lines.push(to(wait === NONE ? "queued" : "began to wait", about));
    if (run !== NONE) {
      lines.push(to("started", history.runs.from[run]));
      lines.push(history.runs.goesOn[run] ? element("li", "has not finished") : to("finished", history.runs.to[run]));
    }
    if (wait !== NONE) {
      lines.push(history.waits.goesOn[wait] ? element("li", "still waits") : to("has waited", history.waits.to[wait]));
    }
  }
  const list = document.createElement("ul");
  list.append(...lines);
  const line = document.createElement("p");
  line.append(`Entry ${entry}, tick ${history.tickAt(entry)}: `, element("code", history.textOf(entry)));
  line.append(namedIn(history, entry));
  return [line, list];
}

class Page {
  constructor(history) {
    this.history = history;
    this.view = new View(history.length, ...history.window);
    this.chart = new Chart(byId("canvas"), history, this.view);
    this.tables = new Tables(history);
    this.filters = {};
    this.matches = null;
    this.listen();
    this.resize();
    this.readPlace();
  }

  listen() {
    const { chart } = this;
    const scroller = byId("chart");
    new ResizeObserver(() => this.resize()).observe(scroller);
    scroller.addEventListener("scroll", () => this.draw());
    scroller.addEventListener("wheel", (event) => this.wheel(event), { passive: false });
    scroller.addEventListener("pointerdown", (event) => this.drag(event));
    scroller.addEventListener("pointermove", (event) => this.hover(event));
    scroller.addEventListener("keydown", (event) => this.key(event));
    byId("overview").addEventListener("pointerdown", (event) => this.dragOverview(event));
    byId("closer").onclick = () => this.zoom(0.5);
    byId("wider").onclick = () => this.zoom(2);
    byId("whole").onclick = () => this.show(0, this.history.length);
    byId("search").addEventListener("submit", (event) => {
      event.preventDefault();
      this.search();
    });
    byId("filters").addEventListener("input", () => this.filter());
    byId("filters").addEventListener("submit", (event) => event.preventDefault());
    byId("filters").addEventListener("reset", () => setTimeout(() => this.filter()));
    window.addEventListener("hashchange", () => this.readPlace());
    document.addEventListener("themed", () => {
      chart.takeColours();
      this.draw();
    });
  }

  resize() {
    byId("rows").style.height = `${this.chart.height + AXIS}px`;
    byId("canvas").style.height = `${Math.min(this.chart.height + AXIS, Math.round(window.innerHeight * 0.65))}px`;
    this.chart.resize();
    this.draw();
  }

  // Draws before the next picture of the screen, and tells of the window once it rests.
  draw() {
    clearTimeout(this.timer);
    this.timer = setTimeout(() => this.tell(), 150);
    if (this.isDue) {
      return;
    }
    this.isDue = true;
    requestAnimationFrame(() => {
      this.isDue = false;
      this.chart.top = byId("chart").scrollTop;
      this.chart.draw();
      this.drawOverview();
    });
  }

  tell() {
    const [from, to] = this.view.entries;
    const all = this.history.length.toLocaleString("en");
    let text = `Entries ${from.toLocaleString("en")} up to ${to.toLocaleString("en")} of ${all}`;
    if (this.matches !== null) {
      let count = 0;
      for (let entry = 0; entry < this.matches.length; entry++) {
        count += this.matches[entry];
      }
      text += `; the filters let ${counted(count, "entry", "entries")} of all through`;
    }
    byId("window").textContent = text;
    this.tables.show(this.view, this.matches);
    this.writePlace();
  }

  // The address of the page says the window and the chosen entry, so that a link leads there.
  writePlace() {
    const [from, to] = this.view.entries;
    const chosen = this.chart.chosen === NONE ? "" : `&entry=${this.chart.chosen}`;
    this.place = `#from=${from}&to=${to}${chosen}`;
    try {
      window.history.replaceState(null, "", this.place);
    } catch {
      // Where a page may not do this, it goes on without.
    }
  }

  readPlace() {
    if (location.hash === this.place) {
      return;
    }
    const place = new URLSearchParams(location.hash.slice(1));
    const number = (name) => (/^\d+$/.test(place.get(name) ?? "") ? Number(place.get(name)) : undefined);
    const [from, to, entry] = [number("from"), number("to"), number("entry")];
    if (from !== undefined && to !== undefined && from < to) {
      this.show(from, to);
    }
    if (entry !== undefined && entry < this.history.length) {
      this.choose(entry);
    }
  }

  show(from, to) {
    this.view.show(from, to);
    this.draw();
  }

  zoom(factor, x = GUTTER + (this.chart.wide - GUTTER) / 2) {
    this.view.zoom(factor, this.chart.entryAt(x), this.chart.leastSpan);
    this.draw();
  }

  move(entries) {
    this.show(this.view.from + entries, this.view.to + entries);
  }

  scroll(pixels) {
    byId("chart").scrollBy(0, pixels);
  }

  pointOf(event) {
    const box = this.chart.canvas.getBoundingClientRect();
    return [event.clientX - box.left, event.clientY - box.top];
  }

  wheel(event) {
    const [x] = this.pointOf(event);
    const unit = event.deltaMode === WheelEvent.DOM_DELTA_PIXEL ? 1 : 30;
    const along = event.shiftKey && event.deltaX === 0 ? event.deltaY : event.deltaX;
    if (x < GUTTER && along === 0) {
      return;
    }
    event.preventDefault();
    if (along !== 0) {
      this.move((along * unit) / this.chart.scale);
    } else {
      this.zoom(2 ** ((event.deltaY * unit) / 200), x);
    }
  }

  // Moves as far as the pointer is dragged. One that comes up where it went down has chosen.
  drag(event) {
    if (event.button !== 0) {
      return;
    }
    const scroller = byId("chart");
    const [x, y] = [event.clientX, event.clientY];
    const { from, to } = this.view;
    const top = scroller.scrollTop;
    let hasMoved = false;
    const moved = (next) => {
      hasMoved = hasMoved || Math.hypot(next.clientX - x, next.clientY - y) > 3;
      if (hasMoved) {
        const entries = (x - next.clientX) / this.chart.scale;
        this.show(from + entries, to + entries);
        scroller.scrollTop = top + y - next.clientY;
      }
    };
    const ended = (last) => {
      scroller.removeEventListener("pointermove", moved);
      scroller.removeEventListener("pointerup", ended);
      scroller.removeEventListener("pointercancel", ended);
      if (!hasMoved && last.type === "pointerup") {
        const entry = this.chart.pick(...this.pointOf(last));
        if (entry !== null) {
          this.choose(entry);
        }
      }
    };
    scroller.setPointerCapture(event.pointerId);
    scroller.addEventListener("pointermove", moved);
    scroller.addEventListener("pointerup", ended);
    scroller.addEventListener("pointercancel", ended);
  }

  hover(event) {
    const entry = event.buttons === 0 ? this.chart.pick(...this.pointOf(event)) : null;
    byId("chart").title = entry === null ? "" : `${entry}: ${this.history.textOf(entry)}`;
  }

  dragOverview(event) {
    const overview = byId("overview");
    const moveTo = ({ clientX }) => {
      const box = overview.getBoundingClientRect();
      const centre = ((clientX - box.left - GUTTER) / (box.width - GUTTER)) * this.history.length;
      this.show(centre - this.view.span / 2, centre + this.view.span / 2);
    };
    overview.setPointerCapture(event.pointerId);
    overview.onpointermove = (next) => next.buttons !== 0 && moveTo(next);
    moveTo(event);
  }

  // The whole history as a strip: where entries match, and which of them the window shows.
  drawOverview() {
    const { history, matches, view } = this;
    const { colours } = this.chart;
    const canvas = byId("overview");
    const ratio = window.devicePixelRatio || 1;
    const [wide, high] = [canvas.clientWidth, canvas.clientHeight];
    canvas.width = Math.round(wide * ratio);
    canvas.height = Math.round(high * ratio);
    const context = canvas.getContext("2d");
    context.setTransform(ratio, 0, 0, ratio, 0, 0);
    const scale = (wide - GUTTER) / Math.max(history.length, 1);
    context.fillStyle = colours.open;
    if (matches === null) {
      context.fillRect(GUTTER, 8, wide - GUTTER, 12);
    } else {
      this.shares ??= sharesOf(matches, Math.max(Math.floor(wide - GUTTER), 1));
      this.shares.forEach((share, at) => {
        const height = share === 0 ? 0 : Math.max(share * 12, 2);
        context.fillRect(GUTTER + at, 20 - height, 1, height);
      });
    }
    context.strokeStyle = colours.text;
    context.lineWidth = 1.5;
    context.strokeRect(GUTTER + view.from * scale, 4, Math.max(view.span * scale - 1, 3), 20);
    context.fillStyle = colours.faint;
    context.font = "11px sans-serif";
    context.textAlign = "right";
    context.textBaseline = "middle";
    context.fillText("all", GUTTER - 8, 14);
  }

  key(event) {
    if (event.ctrlKey || event.metaKey || event.altKey) {
      return;
    }
    const { history, view } = this;
    const actions = {
      ArrowLeft: () => this.move(-view.span / 8),
      ArrowRight: () => this.move(view.span / 8),
      ArrowUp: () => this.scroll(-40),
      ArrowDown: () => this.scroll(40),
      Home: () => this.show(0, view.span),
      End: () => this.show(history.length - view.span, history.length),
      "+": () => this.zoom(0.5),
      "=": () => this.zoom(0.5),
      "-": () => this.zoom(2),
      0: () => this.show(0, history.length),
      n: () => this.step(1),
      p: () => this.step(-1),
      "/": () => byId("entry").focus(),
    };
    const action = actions[event.key.length === 1 ? event.key.toLowerCase() : event.key];
    if (action !== undefined) {
      event.preventDefault();
      action();
    }
  }

  // Chooses the next entry that the filters let through, in this direction.
  step(by) {
    const { chosen } = this.chart;
    let entry = chosen === NONE ? (by > 0 ? this.view.entries[0] : this.view.entries[1] - 1) : chosen + by;
    while (entry >= 0 && entry < this.history.length && this.chart.isFaint(entry)) {
      entry += by;
    }
    if (entry >= 0 && entry < this.history.length) {
      this.choose(entry);
    }
  }

  choose(entry) {
    this.chart.chosen = entry;
    byId("chosen").replaceChildren(...detailsOf(this.history, entry, (other) => this.choose(other)));
    const { view } = this;
    if (entry < view.from || entry + 1 > view.to) {
      this.show(entry - view.span / 2, entry + view.span / 2);
    }
    this.draw();
  }

  // Chooses the entry with the number that was asked for, so near that it can be seen apart.
  search() {
    const input = byId("entry");
    const entry = Number(input.value);
    const isOne = /^\s*\d+\s*$/.test(input.value) && entry < this.history.length;
    input.setCustomValidity(isOne ? "" : `There are ${counted(this.history.length, "entry", "entries")}, from 0.`);
    if (!isOne) {
      input.reportValidity();
      return;
    }
    const span = Math.min(this.view.span, 120);
    this.view.show(entry + 0.5 - span / 2, entry + 0.5 + span / 2);
    this.choose(entry);
  }

  filter() {
    this.filters = {};
    for (const name of ["item", "queue", "caller"]) {
      const input = byId(name);
      const digits = input.value.trim().replace(/^[a-z](?=\d)/, "");
      const isNumber = /^\d+$/.test(digits);
      input.setCustomValidity(isNumber || digits === "" ? "" : `The number of one ${name}`);
      if (isNumber) {
        this.filters[name] = Number(digits);
      }
    }
    this.matches = matching(this.history, this.filters);
    this.shares = undefined;
    this.chart.matches = this.matches;
    this.chart.filterQueue = this.filters.queue;
    this.draw();
  }
}

// Which share of the entries matches in each of so many parts of the history.
function sharesOf(matches, parts) {
  const shares = new Float64Array(parts);
  for (let entry = 0; entry < matches.length; entry++) {
    shares[Math.floor((entry * parts) / matches.length)] += (matches[entry] * parts) / matches.length;
  }
  return shares;
}

// Light or dark, as the system has it unless the reader chose.
function followTheme() {
  const system = matchMedia("(prefers-color-scheme: dark)");
  const select = byId("theme");
  const apply = () => {
    document.documentElement.dataset.theme = select.value || (system.matches ? "dark" : "light");
    document.dispatchEvent(new Event("themed"));
  };
  system.addEventListener("change", apply);
  select.addEventListener("change", apply);
  apply();
}

document.addEventListener("DOMContentLoaded", () => {
  followTheme();
  if (byId("end") === null) {
    byId("summary").textContent = "This file is cut off: it does not have the whole history.";
    return;
  }
  const source = byId("history");
  const script = byId("names");
  const names = new Names(script === null ? null : JSON.parse(script.textContent));
  const made = new History(new TextEncoder().encode(source.textContent.trimStart()), names);
  source.remove();
  const ticks = made.length === 0 ? "0" : made.tickAt(made.length - 1);
  const unit = ticks === "1" ? "tick" : "ticks";
  byId("summary").textContent = `${counted(made.length, "entry", "entries")}, ${ticks} ${unit}`;
  window.page = new Page(made);
});
</script>
<script type="text/plain" id="history">
"###;

/// What stands after them.
pub(crate) const TAIL: &str = r###"</script>
<p id="end" hidden></p>
"###;
