//! The page of the test master, as one text of HTML, with its style and its script.

/// The page. It gets `/state` twice a second, and shows it. Its buttons post to `/fault`.
pub(crate) const PAGE: &str = r##"<!DOCTYPE html>
<html lang="en">
<head>
<meta charset="utf-8">
<meta name="viewport" content="width=device-width, initial-scale=1">
<title>mesosev master</title>
<style>
:root { color-scheme: light dark; --line: #8884; --soft: #8881; --good: #2a7d3f; --bad: #c0362c; }
* { box-sizing: border-box; }
body { margin: 0 auto; max-width: 75rem; padding: 1rem; font: 15px/1.5 system-ui, sans-serif; }
header { display: flex; flex-wrap: wrap; gap: .5rem 1.5rem; align-items: baseline; }
h1 { font-size: 1.3rem; margin: 0; }
h2 { font-size: 1rem; margin: 0 0 .25rem; }
#status { margin: 0; flex: 1; min-width: 16rem; overflow-wrap: anywhere; }
.good { color: var(--good); }
.bad { color: var(--bad); }
#faults { display: flex; flex-wrap: wrap; gap: .5rem; margin: .75rem 0; }
button { font: inherit; padding: .25rem .75rem; }
main { display: grid; gap: 1rem; grid-template-columns: 1fr; }
@media (min-width: 60rem) { main { grid-template-columns: 1fr 1fr; } }
section { border: 1px solid var(--line); border-radius: 6px; padding: .75rem; min-width: 0; overflow-x: auto; }
table { border-collapse: collapse; width: 100%; }
th, td { text-align: left; padding: .15rem .75rem .15rem 0; vertical-align: top; overflow-wrap: break-word; }
th { font-weight: 600; border-bottom: 1px solid var(--line); white-space: nowrap; }
tbody tr:nth-child(even) { background: var(--soft); }
ol { margin: 0; padding: 0; list-style: none; max-height: 22rem; overflow-y: auto; font-family: ui-monospace, monospace; font-size: 13px; }
.none { opacity: .7; margin: 0; }
</style>
</head>
<body>
<header>
<h1>mesosev master</h1>
<p id="status" role="status">Loading the state</p>
</header>
<div id="faults" role="group" aria-label="Faults">
<button data-type="BREAK" title="Breaks the stream after the bytes before">Break the stream</button>
<button data-type="MUTE" title="Sends nothing more on the stream, and keeps it open">Mute</button>
<button data-type="SPEAK" title="Ends a mute">Speak</button>
<button data-type="LOSE" title="Does not send the next event">Lose the next event</button>
<button data-type="TWICE" title="Sends the next event twice">Send it twice</button>
<button data-type="BUSY" title="Answers the next call with 503">Busy for the next call</button>
</div>
<main>
<section><h2>Offers</h2><div id="offers"></div></section>
<section><h2>Tasks</h2><div id="tasks"></div></section>
<section><h2>Unacknowledged updates</h2><div id="updates"></div></section>
<section><h2>Last events and calls</h2><div id="log"></div></section>
</main>
<script>
"use strict";
const by = id => document.getElementById(id);
const seconds = ms => (ms / 1000).toFixed(1) + " s";
let shown = "";

function element(name, text, kind) {
  const made = document.createElement(name);
  if (text !== undefined) made.textContent = text;
  if (kind) made.className = kind;
  return made;
}

function fill(place, columns, rows) {
  if (rows.length === 0) return by(place).replaceChildren(element("p", "None", "none"));
  const table = element("table"), head = table.createTHead().insertRow(), body = table.createTBody();
  for (const name of columns) { const cell = element("th", name); cell.scope = "col"; head.append(cell); }
  for (const row of rows) { const line = body.insertRow(); for (const value of row) line.append(element("td", value)); }
  by(place).replaceChildren(table);
}

function amounts(offer) {
  return (offer.resources || []).map(it => it.name + (it.scalar ? " " + it.scalar.value : "")).join(", ");
}

function offerRow(it, time) {
  const wait = it.from !== null && it.from > time ? " from " + seconds(it.from) : "";
  const users = it.tasks > 0 ? " by " + it.tasks : "";
  return [it.offer.id.value, it.state + wait + users, it.offer.agent_id.value, amounts(it.offer)];
}

function taskRow(it) {
  const update = it.acknowledged ? "" : "update unacknowledged";
  return [it.task_id, it.state, it.agent_id, [update, it.killed ? "killed" : ""].filter(Boolean).join(", ")];
}

function logLine(it) {
  return it.event ? element("li", "→ " + it.event) : element("li", "← " + it.call + " " + it.status, it.status < 300 ? "" : "bad");
}

function show(state) {
  const stream = state.stream ? "stream " + state.stream : "no stream";
  const count = (number, name) => number + " " + name + (number === 1 ? "" : "s");
  by("status").textContent = [state.framework, stream, seconds(state.time), count(state.calls, "call"), count(state.events, "event"),
    count(state.faults, "planned fault"), count(state.launched.length, "task") + " launched", state.suppressed ? "offers suppressed" : ""].filter(Boolean).join(" · ");
  by("status").className = state.stream ? "good" : "";
  fill("offers", ["Offer", "State", "Agent", "Resources"], state.offers.map(it => offerRow(it, state.time)));
  fill("tasks", ["Task", "State", "Agent", ""], state.tasks.map(taskRow));
  fill("updates", ["Task", "Agent", "UUID", "Sent"], state.unacknowledged.map(it => [it.task_id, it.agent_id, it.uuid, seconds(it.sent)]));
  const log = element("ol");
  log.append(...state.log.map(logLine).reverse());
  by("log").replaceChildren(state.log.length ? log : element("p", "None", "none"));
}

function fail(why) {
  shown = "";
  by("status").textContent = why;
  by("status").className = "bad";
}

async function update() {
  try {
    const response = await fetch("/state", { cache: "no-store" });
    if (!response.ok) throw new Error("GET /state: status " + response.status);
    const text = await response.text();
    if (text !== shown) { show(JSON.parse(text)); shown = text; }
  } catch (error) {
    fail(error instanceof TypeError ? "The master does not answer: it has ended, or was restarted on another port" : error.message);
  }
  setTimeout(update, 500);
}

async function demand(type) {
  try {
    const response = await fetch("/fault", { method: "POST", headers: { "Content-Type": "application/json" }, body: JSON.stringify({ type }) });
    if (!response.ok) fail("POST /fault: status " + response.status);
  } catch (error) {
    fail("The master does not answer");
  }
}

for (const button of document.querySelectorAll("button")) button.addEventListener("click", () => demand(button.dataset.type));
update();
</script>
</body>
</html>
"##;
