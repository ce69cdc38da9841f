//! What a page has of its own: how it looks, and how its list is searched and sorted.

/// The beginning of the page, with its style: light or dark as the reader has it, and in print without the search.
pub(crate) const HEAD: &str = r##"<!DOCTYPE html>
<html lang="en">
<head>
<meta charset="utf-8">
<meta name="viewport" content="width=device-width, initial-scale=1">
<title>Type layouts</title>
<style>
:root { color-scheme: light dark; --line: #8886; --part: #9ec5f4; --tag: #f2b880; --ink: #111; --differs: #f6e58d; }
@media (prefers-color-scheme: dark) { :root { --part: #27527f; --tag: #7a4a1e; --ink: #f4f4f4; --differs: #6b5d00; } }
body { font: 16px/1.45 system-ui, sans-serif; margin: 0 auto; max-width: 72rem; padding: 1rem; }
table { border-collapse: collapse; margin: .5rem 0; }
th, td { border: 1px solid var(--line); padding: .15rem .5rem; text-align: left; }
td { text-align: right; font-variant-numeric: tabular-nums; }
td:nth-child(2) code { float: left; }
code, h2, figcaption, th[scope=row] { font-family: ui-monospace, monospace; }
h2 { overflow-wrap: anywhere; border-top: 1px solid var(--line); padding-top: 1rem; }
button { font: inherit; border: 0; background: none; color: inherit; cursor: pointer; padding: 0; text-decoration: underline dotted; }
dl { display: flex; gap: .4rem; margin: 0; }
dt { font-weight: bold; }
dd { margin: 0 1rem 0 0; }
figure { margin: 0; min-width: 16rem; flex: 1; }
.layouts, .variants { display: flex; flex-wrap: wrap; gap: 1.5rem; }
.layout { flex: 1; min-width: min(100%, 24rem); }
.map { position: relative; height: 2rem; border: 1px solid var(--line);
  background: repeating-linear-gradient(45deg, transparent 0 4px, var(--line) 4px 5px); }
.map span { position: absolute; top: 0; bottom: 0; box-sizing: border-box; overflow: hidden; color: var(--ink); border: 1px solid var(--line);
  font: .8rem/1.9rem ui-monospace, monospace; text-align: center; white-space: nowrap; text-overflow: ellipsis;
  left: calc(100% * var(--at) / var(--all)); width: calc(100% * var(--of) / var(--all)); }
.part { background: var(--part); }
.tag { background: var(--tag); }
.differs { background: var(--differs); font-weight: bold; }
:target h2 { background: var(--differs); }
@media print { .map span { print-color-adjust: exact; } .search, button { display: none; } section { break-inside: avoid; } }
</style>
</head>
<body>
<h1>Type layouts</h1>
"##;

/// The beginning of the list of all types.
pub(crate) const LIST_HEAD: &str =
    r##"<p class="search"><label>Search <input type="search" id="search" autocomplete="off"></label></p>
<table id="types">
<thead><tr>
<th scope="col"><button type="button">Type</button></th>
<th scope="col"><button type="button">Size</button></th>
<th scope="col"><button type="button">Alignment</button></th>
<th scope="col"><button type="button">Padding</button></th>
</tr></thead>
<tbody>
"##;

/// The end of the list of all types.
pub(crate) const LIST_FOOT: &str = "</tbody></table>\n<main>\n";

/// The beginning of a table of fields.
pub(crate) const FIELDS_HEAD: &str =
    r##"<table><thead><tr><th scope="col">Field</th><th scope="col">Type</th><th scope="col">Offset</th><th scope="col">Size</th></tr></thead><tbody>"##;

/// The end of the page, with what searches and sorts the list; without it all is there to read.
pub(crate) const FOOT: &str = r##"</main>
<script>
"use strict";
const body = document.querySelector("#types tbody"), rows = Array.from(body.rows);
const sections = new Map(Array.from(document.querySelectorAll("main > section[id]"), it => [it.id, it]));
document.getElementById("search").addEventListener("input", event => {
  const wanted = event.target.value.toLowerCase();
  for (const row of rows) {
    const name = row.cells[0].textContent;
    const isLeft = !name.toLowerCase().includes(wanted);
    row.hidden = isLeft;
    const section = sections.get(name);
    if (section) section.hidden = isLeft;
  }
});
document.querySelectorAll("#types button").forEach((button, column) => button.addEventListener("click", () => {
  const text = row => row.cells[column].textContent;
  rows.sort(column ? (a, b) => text(b) - text(a) : (a, b) => text(a).localeCompare(text(b)));
  body.append(...rows);
}));
</script>
</body>
</html>
"##;
