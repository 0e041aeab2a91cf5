// What stands before and after the rows of a page.

/// The page up to its rows: its style, the filter, the lanes, and the beginning of the element for the rows.
pub(crate) const HEAD: &str = r#"<!doctype html>
<html lang="en">
<meta charset="utf-8">
<meta http-equiv="Content-Security-Policy"
 content="default-src 'none'; style-src 'unsafe-inline'; script-src 'unsafe-inline'; img-src data:">
<link rel="icon" href="data:,">
<title>hvpm run</title>
<style>
html, body { height: 100%; margin: 0 }
body { display: flex; flex-direction: column; color: #222 }
body { font: 13px/20px system-ui, Helvetica, Arial, sans-serif }
form { display: flex; flex-wrap: wrap; gap: 6px 10px; align-items: center; padding: 6px 10px }
input, select, button { font: inherit; padding: 1px 6px }
#text { width: 16em } #vp { width: 8em } #from, #to { width: 6em }
#count { color: #666 }
#time { height: 84px; overflow-y: auto; border: solid #ccc; border-width: 1px 0; position: relative }
#lanes { position: sticky; top: 0; display: block }
#depth { position: absolute; top: 0; width: 1px }
main { flex: 1; display: flex; min-height: 0 }
#list { flex: 3; overflow: auto; position: relative; overflow-anchor: none }
#rows a { position: absolute; left: 0; right: 0; height: 20px; display: flex; color: inherit }
#rows a { white-space: pre }
#rows a { text-decoration: none; box-sizing: border-box; border-bottom: 1px solid #f0f0f0 }
#rows a:hover { background: #eef4ff }
#rows a.refused { color: #b00020; background: #fff5f5 }
#rows a.chosen { background: #ffe9a8 }
.number { flex: 0 0 5em; text-align: right; color: #888 }
.by, .to { flex: 0 0 5em; padding-left: 1em; overflow: hidden; text-overflow: ellipsis }
.by { font-weight: 600 }
.to { color: #05a }
.words { flex: 1; overflow: hidden; text-overflow: ellipsis }
#event { flex: 2; overflow: auto; border-left: 1px solid #ccc; padding: 6px 12px; overflow-wrap: anywhere }
h2 { font-size: 15px; margin: 0 0 6px } h3 { font-size: 13px; margin: 10px 0 2px }
table { border-collapse: collapse } td { padding: 0 12px 0 0; vertical-align: top }
td:first-child { color: #666; white-space: nowrap }
.why { color: #b00020 }
pre { white-space: pre-wrap; margin: 0; color: #666 }
</style>
<form id="form" autocomplete="off">
<b>hvpm run</b>
<input id="text" type="search" placeholder="words">
<input id="vp" placeholder="VP 2.0, or 2" list="vps"><datalist id="vps"></datalist>
<select id="rule"><option value="">any rule</option></select>
<span>events <input id="from" type="number" min="1"> to <input id="to" type="number" min="1"></span>
<label><input id="refused" type="checkbox"> refused</label>
<label><input id="sent" type="checkbox"> messages and signals</label>
<button type="reset">all</button>
<output id="count"></output>
</form>
<div id="time"><div id="depth"></div><canvas id="lanes"></canvas></div>
<main><div id="list"><div id="rows"></div></div><aside id="event">Choose an event.</aside></main>
<script type="text/plain" id="run">"#;

/// The end of that element, and the page's program, which reads the rows from it.
pub(crate) const TAIL: &str = r#"</script>
<script>
'use strict';
// The run: two lines for each event, its words and its object.
const $ = id => document.getElementById(id);
const lines = $('run').textContent.split('\n');
const count = lines.length >> 1;
const object = at => JSON.parse(lines[2 * at + 1]);
const ROW = 20, LANE = 14, NAMED = 44;

// What the filter, the lanes and the state need of each event.
const bys = [], tos = [], rules = [], sent = [], effects = [], writes = [];
const posts = new Set(), parts = new Map();
const SENT = /^(HvPostMessage|HvSignalEvent|ReadSlot|ClearSlot|ReadFlags|ClearFlag|TakeInterrupt)$/;

// A register or an MSR without the parts of its name that tell one from the other.
const plain = name => name.replace(/^HV_X64_MSR_/, '').replace(/ .*/, '');
const part_of = vp => Number(vp.split('.')[0]);

// The register that an event wrote: its processor, its name and the value.
function write_of(e) {
  const f = e.fields;
  if (e.rule) return null;
  if (e.name === 'WriteMsr') return [e.vp, plain(f.msr), f.value];
  if (e.name !== 'HvSetVpRegisters' || f.register === undefined) return null;
  return [(f.partition === 'self' ? part_of(e.vp) : f.partition) + '.' + f.vp, plain(f.register), f.value];
}

function note(part, at) {
  const own = parts.get(part);
  if (!own) parts.set(part, [at]);
  else if (own[own.length - 1] !== at) own.push(at);
}

for (let at = 0; at < count; at++) {
  const e = object(at), effect = e.effect;
  bys.push(e.vp);
  tos.push(effect.vp && effect.vp !== e.vp ? effect.vp : null);
  rules.push(e.rule);
  effects.push(effect.kind === 'nothing' ? null : effect);
  writes.push(write_of(e));
  if (e.name === 'HvPostMessage') posts.add(at);
  const ends = e.name === 'WriteMsr' && plain(e.fields.msr) === 'EOM';
  sent.push(ends || effect.kind === 'synic' || SENT.test(e.name));
  note(part_of(e.vp), at);
  if (effect.vp) note(part_of(effect.vp), at);
  if (effect.partition) note(effect.partition, at);
  if (writes[at]) note(part_of(writes[at][0]), at);
}

// The messages, flags and vectors at a processor after an event, each with the event that it comes from, and
// the registers that were written.
function state_of(vp, last) {
  let slots = {}, queues = {}, flags = {}, vectors = {}, registers = {};
  for (const at of parts.get(part_of(vp)) || []) {
    if (at > last) break;
    const e = effects[at], write = writes[at];
    if (write && write[0] === vp) registers[write[1]] = write[2];
    if (!e || (e.vp !== vp && e.partition !== part_of(vp))) continue;
    if (e.kind !== 'synic') {
      slots = {}, queues = {}, flags = {}, vectors = {}, registers = {};
      continue;
    }
    const queue = sint => queues[sint] = queues[sint] || [];
    if (e.waiting !== null) queue(e.waiting).push(at);
    for (const sint of e.shown) {
      delete slots[sint];
      if (e.freed !== null) continue;
      if (posts.has(at)) queue(sint).push(at);
      if (queue(sint).length) slots[sint] = queue(sint).shift();
    }
    const flag = e.flag && `${e.flag.flag} of SINT ${e.flag.sint}`;
    if (flag && e.flag.set) flags[flag] = at;
    else if (flag) delete flags[flag];
    for (const vector of e.raised) vectors[vector] = at;
    if (e.taken !== null) delete vectors[e.taken];
  }
  return { slots, queues, flags, vectors, registers };
}

// Elements. Texts of the run are never read as HTML.
function make(tag, set, ...inside) {
  const made = Object.assign(document.createElement(tag), set);
  made.append(...inside);
  return made;
}
const link = at => make('a', { href: '#' + (at + 1) }, '#' + (at + 1));
const table = rows => make('table', {}, ...rows.map(([name, ...value]) =>
  make('tr', {}, make('td', {}, name), make('td', {}, ...value))));
const hex = number => '0x' + Number(number).toString(16);

// What an effect changed, in rows.
function rows_of(e) {
  const f = e.effect, rows = [];
  const pool = f.pooled ? 'pooled' : 'loose';
  if (f.kind === 'page') return [['page ' + f.page, `${pool}, partition ${f.owner}`]];
  if (f.kind === 'pages') return [['pages', `from partition ${f.from} to partition ${f.to}`]];
  if (f.kind === 'processor') return [['processor', f.vp]];
  if (f.kind === 'partition') return [['partition', String(f.partition)]];
  if (f.kind !== 'synic') return [['nothing', '']];
  rows.push(['at', f.vp]);
  const slot = f.freed === null ? 'shows a message' : 'is empty';
  for (const sint of f.shown) rows.push(['slot of SINT ' + sint, slot]);
  if (f.waiting !== null) rows.push(['SINT ' + f.waiting, 'one more message waits']);
  if (f.flag) rows.push([`flag ${f.flag.flag} of SINT ${f.flag.sint}`, f.flag.set ? 'set' : 'cleared']);
  for (const vector of f.raised) rows.push(['vector ' + hex(vector), 'pending']);
  if (f.taken !== null) rows.push(['vector ' + hex(f.taken), 'taken']);
  if (f.freed !== null) rows.push(['message of port', String(f.freed)]);
  return rows;
}

function state_rows(vp, last) {
  const state = state_of(vp, last), rows = [];
  const each = (of, row) => { for (const [name, value] of Object.entries(of)) rows.push(row(name, value)) };
  each(state.slots, (sint, at) => ['slot of SINT ' + sint, 'the message of ', link(at)]);
  each(state.queues, (sint, own) => own.length
    ? ['behind it, SINT ' + sint, own.length + ' waiting, the oldest of ', link(own[0])]
    : ['behind it, SINT ' + sint, 'none']);
  each(state.flags, (flag, at) => ['flag ' + flag, 'set by ', link(at)]);
  each(state.vectors, (vector, at) => ['vector ' + hex(vector), 'raised by ', link(at)]);
  each(state.registers, (name, value) => [name, String(value)]);
  return rows.length ? rows : [['nothing', '']];
}

// The chosen event: what it asked for, the reply, the effect, and the processors that it concerns.
function show(at) {
  const e = object(at), own = parts.get(part_of(e.vp)).filter(i => bys[i] === e.vp), here = own.indexOf(at);
  const around = [['before', own[here - 1]], ['after', own[here + 1]]].filter(([, i]) => i !== undefined);
  const fields = Object.entries(e.fields).map(([name, value]) => [name, String(value)]);
  const reply = [['reply', e.reply + (e.status ? ', ' + e.status : '') + (e.reps ? ', reps ' + e.reps : '')]];
  if (e.rule) reply.push(['rule', e.rule + ': ' + e.reason]);
  if (e.output) reply.push(['output', e.output]);
  $('event').replaceChildren(
    make('h2', {}, link(at), ` ${e.name || 'unknown call'}`),
    make('p', { className: e.rule ? 'why' : '' }, lines[2 * at]),
    table([['processor', e.vp, ...around.flatMap(([name, i]) => [`, ${name}: `, link(i)])],
      ['line', String(e.line)], ...fields, ...reply]),
    make('h3', {}, 'Effect'), table(rows_of(e)),
    ...[...new Set([e.vp, tos[at]])].filter(Boolean).flatMap(vp =>
      [make('h3', {}, `State of ${vp} after the event`), table(state_rows(vp, at))]),
    make('h3', {}, 'Object'), make('pre', {}, lines[2 * at + 1]));
}

// The filter.
let shown = [], chosen = -1;
function filter() {
  const text = $('text').value.toLowerCase(), vp = $('vp').value.trim(), rule = $('rule').value;
  const from = Number($('from').value || 1), to = Number($('to').value || count);
  const is_at = name => name === vp || (name !== null && name.startsWith(vp + '.'));
  shown = [];
  for (let at = Math.max(from, 1) - 1; at < Math.min(to, count); at++) {
    if (rule && rules[at] !== rule || $('refused').checked && !rules[at]) continue;
    if ($('sent').checked && !sent[at]) continue;
    if (vp && !is_at(bys[at]) && !is_at(tos[at])) continue;
    if (text && !lines[2 * at].toLowerCase().includes(text)) continue;
    shown.push(at);
  }
  $('count').textContent = `${shown.length} of ${count} events, ${rules.filter(Boolean).length} refused`;
  $('rows').style.height = shown.length * ROW + 'px';
  list();
  lanes();
}

// The rows that are in sight.
function list() {
  const top = $('list').scrollTop, first = Math.max(0, Math.floor(top / ROW) - 5);
  const past = Math.min(shown.length, Math.ceil((top + $('list').clientHeight) / ROW) + 5), rows = [];
  for (let i = first; i < past; i++) {
    const at = shown[i];
    const className = at === chosen ? 'chosen' : rules[at] ? 'refused' : '';
    const row = make('a', { href: '#' + (at + 1), className },
      make('span', { className: 'number' }, String(at + 1)), make('span', { className: 'by' }, bys[at]),
      make('span', { className: 'to' }, tos[at] ? '\u2192 ' + tos[at] : ''),
      make('span', { className: 'words' }, lines[2 * at]));
    row.style.top = i * ROW + 'px';
    rows.push(row);
  }
  $('rows').replaceChildren(...rows);
}

// The lanes of the partitions in sight. In each pixel a refusal hides a message, and a message other events.
const COLORS = [, '#9a9a9a', '#0055aa', '#d00020'];
const ids = [...parts.keys()].sort((a, b) => a - b);
const x_of = (at, width) => NAMED + Math.floor(at / count * (width - NAMED));
function lanes() {
  const canvas = $('lanes'), box = $('time'), width = box.clientWidth, height = box.clientHeight;
  const scale = window.devicePixelRatio || 1, pen = canvas.getContext('2d');
  $('depth').style.height = ids.length * LANE + 'px';
  canvas.style.width = width + 'px', canvas.style.height = height + 'px';
  canvas.width = width * scale, canvas.height = height * scale;
  pen.scale(scale, scale);
  pen.font = '11px system-ui, Helvetica, Arial, sans-serif';
  for (let i = Math.floor(box.scrollTop / LANE); i < ids.length; i++) {
    const y = i * LANE - box.scrollTop;
    if (y > height) break;
    const marks = new Uint8Array(width + 1), wide = Math.max(1, Math.floor((width - NAMED) / count) - 1);
    for (const at of parts.get(ids[i])) {
      const mark = part_of(bys[at]) !== ids[i] ? 2 : rules[at] ? 3 : sent[at] ? 2 : 1, x = x_of(at, width);
      marks[x] = Math.max(marks[x], mark);
    }
    pen.fillStyle = '#666';
    pen.fillText(String(ids[i]), 4, y + 11);
    for (let x = NAMED; x <= width; x++) {
      if (marks[x]) pen.fillStyle = COLORS[marks[x]], pen.fillRect(x, y + 2, wide, LANE - 4);
    }
  }
  if (chosen >= 0) pen.fillStyle = '#e0a000', pen.fillRect(x_of(chosen, width), 0, 2, height);
}
const event_at = e => Math.max(0, Math.min(count - 1,
  Math.floor((e.clientX - NAMED) / ($('time').clientWidth - NAMED) * count)));

// Scrolls until a row is in sight.
function reveal(box, y, height) {
  const top = box.scrollTop, sight = box.clientHeight;
  if (y < top || y + height > top + sight) box.scrollTop = y - sight / 2;
}

// A link to an event, as #17. It leads there whatever the filter hides.
function follow() {
  const at = Number(location.hash.slice(1)) - 1;
  if (!(at >= 0 && at < count)) return;
  chosen = at;
  if (!shown.includes(at)) $('form').reset(), filter();
  reveal($('list'), shown.indexOf(at) * ROW, ROW);
  reveal($('time'), ids.indexOf(part_of(bys[at])) * LANE, LANE);
  list();
  lanes();
  show(at);
}

// The choices of the filter.
for (const vp of [...new Set(bys)].slice(0, 500)) $('vps').append(make('option', { value: vp }));
const refusals = new Map();
for (const rule of rules) if (rule) refusals.set(rule, (refusals.get(rule) || 0) + 1);
for (const rule of [...refusals.keys()].sort((a, b) => a.slice(1) - b.slice(1))) {
  $('rule').append(make('option', { value: rule }, `${rule} (${refusals.get(rule)})`));
}

let drag = null;
$('lanes').onpointerdown = e => { drag = event_at(e), $('lanes').setPointerCapture(e.pointerId) };
$('lanes').onpointerup = e => {
  const first = Math.min(drag, event_at(e)), last = Math.max(drag, event_at(e));
  if (last - first < Math.max(1, count / 100)) location.hash = '#' + (last + 1);
  else $('from').value = first + 1, $('to').value = last + 1, filter();
};
$('form').oninput = filter;
$('form').onsubmit = e => e.preventDefault();
$('form').onreset = () => setTimeout(filter);
$('list').onscroll = list;
$('time').onscroll = lanes;
window.onresize = () => { list(), lanes() };
window.onhashchange = follow;
window.onkeydown = e => {
  const step = { ArrowDown: 1, ArrowUp: -1 }[e.key];
  if (!step || /INPUT|SELECT/.test(e.target.tagName)) return;
  const next = shown[shown.indexOf(chosen) + step];
  if (next !== undefined) location.replace('#' + (next + 1)), e.preventDefault();
};
filter();
follow();
</script>
"#;
