//! How the page looks: in light and dark, and printed. There is no byte in it that is written as an entity.

/// The rules, without quotes, ampersands and angle brackets.
pub const STYLE: &str = "
:root { color-scheme: light dark;
  --ink: #1c2127; --soft: #5a6570; --paper: #ffffff; --line: #d8dde3; --band: #f2f4f7; --mark: #fff1ef; --badge: #ffffff;
  --completed: #2f8f5b; --standing: #e08a00; --failed: #c4262e; --rolledback: #7d5bbe; --going: #1f77d0;
  --done: #8fd0ab; --broken: #e5252c; --aborted: #f2b441; --notbegun: #98a2ad; --callfailed: #c2348f; --open: #7ab8f5; }
@media (prefers-color-scheme: dark) { :root {
  --ink: #e7eaee; --soft: #a3adb8; --paper: #15191e; --line: #343b44; --band: #1e242b; --mark: #3a1d1f; --badge: #10141a;
  --completed: #3fae74; --standing: #f0a020; --failed: #ef5257; --rolledback: #a78bea; --going: #55a3f0;
  --done: #2c6e4a; --broken: #ff5a5f; --aborted: #d89a20; --notbegun: #77818c; --callfailed: #e86ab8; --open: #4a90d9; } }
body { margin: 0 auto; max-width: 84rem; padding: 1.5rem; color: var(--ink); background: var(--paper);
  font: 15px/1.45 system-ui, -apple-system, sans-serif; }
h1 { margin: 0; font-size: 1.6rem; }
h2 { margin: 0; font-size: 1.2rem; overflow-wrap: anywhere; }
p { margin: .3rem 0; color: var(--soft); }
section { margin-top: 1.6rem; padding-top: 1.1rem; border-top: 1px solid var(--line); }
.id, .time, td { font-variant-numeric: tabular-nums; }
.id { font-family: ui-monospace, monospace; font-size: .85em; overflow-wrap: anywhere; }
.legend { display: flex; flex-wrap: wrap; gap: .3rem 1.1rem; margin: .6rem 0 0; padding: 0; list-style: none; }
.legend li { display: flex; align-items: center; gap: .4rem; white-space: nowrap; }
.legend .what { color: var(--soft); }
.key { display: inline-block; width: .95rem; height: .95rem; border-radius: 3px; print-color-adjust: exact; -webkit-print-color-adjust: exact; }
.small { height: .5rem; }
svg { display: block; overflow: visible; }
svg text { fill: var(--soft); font-size: 11px; text-anchor: middle; }
.line { margin: .7rem 0 .9rem; }
.grid { fill: var(--line); }
.life { fill: var(--band); }
.completed { fill: var(--completed); background: var(--completed); }
.standing { fill: var(--standing); background: var(--standing); }
.waits { fill: var(--standing); opacity: .3; }
.failed { fill: var(--failed); background: var(--failed); }
.rolledback { fill: var(--rolledback); background: var(--rolledback); }
.going { fill: var(--going); background: var(--going); }
.done { fill: var(--done); background: var(--done); }
.broken { fill: var(--broken); background: var(--broken); }
.aborted { fill: var(--aborted); background: var(--aborted); }
.notbegun { fill: var(--notbegun); background: var(--notbegun); }
.callfailed { fill: var(--callfailed); background: var(--callfailed); }
.open { fill: var(--open); background: var(--open); }
.operation { stroke: var(--paper); stroke-width: 1px; }
.within { stroke: var(--paper); stroke-width: .75px; }
table { position: relative; width: 100%; border-collapse: collapse; }
th { padding: .3rem .6rem .3rem 0; border-bottom: 1px solid var(--line); color: var(--soft); font-size: .82rem; font-weight: 600; text-align: left; }
td { padding: .45rem .6rem .45rem 0; border-bottom: 1px solid var(--line); vertical-align: top; }
tr.bad td { background: var(--mark); print-color-adjust: exact; -webkit-print-color-adjust: exact; }
td.time, td.took { white-space: nowrap; }
td.tries { padding-right: .3rem; }
.operations { table-layout: fixed; }
.col-time { width: 14.6%; } .col-took { width: 6.2%; } .col-what { width: 11%; } .col-state { width: 9.4%; } .col-why { width: 13.5%; }
th:first-child, td.first { padding-left: .7rem; }
caption { position: absolute; width: 1px; height: 1px; overflow: hidden; clip-path: inset(50%); }
.why { overflow-wrap: break-word; }
.bad td.first { box-shadow: inset 4px 0 0 var(--failed); }
.state { display: inline-block; padding: .05rem .5rem; border-radius: 3px; color: var(--badge); font-size: .8rem; font-weight: 600; letter-spacing: .02em; print-color-adjust: exact; -webkit-print-color-adjust: exact; }
.asker { color: var(--soft); font-size: .85rem; }
summary { cursor: pointer; }
summary .count { color: var(--soft); font-size: .85rem; }
details ul { margin: .5rem 0; padding: 0; list-style: none; font-size: .85rem; }
details table { font-size: .85rem; }
details td, details th, details th:first-child { padding: .15rem .5rem .15rem 0; border: 0; }
details td { overflow-wrap: break-word; }
.within-line { margin: .25rem 0 .3rem; }
@media (max-width: 62rem) { section { overflow-x: auto; } .operations { table-layout: auto; } td.time { white-space: normal; } td.why, td.tries { min-width: 10rem; } }
@media print { body { max-width: none; padding: 0; font-size: 11px; } section, tr { break-inside: avoid; }
  details::details-content { content-visibility: visible; height: auto; } }
";
