//! What is before and after the files of a page: how it looks, and how resources are chosen.

/// What is before the files. No request goes out: only pictures and sounds within the page are shown, and only this style
/// and this script count.
pub(crate) const HEAD: &str = "\
<!DOCTYPE html>
<html lang=\"en\">
<head>
<meta charset=\"utf-8\">
<meta http-equiv=\"Content-Security-Policy\" content=\"default-src 'none'; img-src data:; media-src data:; style-src 'sha256-D7Hp4HNF7LJbmt/LmOlOqcB/Gp+fLxSKrmyHr/c9WWA='; script-src 'sha256-ERiscKs4canMJMt6U662YXev/OlDKGT+H3sDI91FqHQ='\">
<meta name=\"viewport\" content=\"width=device-width, initial-scale=1\">
<title>Resources of old files</title>
<style>:root { color-scheme: light dark; --ink: #1c1c1e; --paper: #fbfaf7; --card: #fff; --line: #d9d6cf; --quiet: #5d5a54; --light: #fff; --dark: #d0cec8; }
@media (prefers-color-scheme: dark) { :root { --ink: #ecebe6; --paper: #1b1b1d; --card: #262629; --line: #3e3e43; --quiet: #a9a69f; --light: #6b6b70; --dark: #54545a; } }
* { box-sizing: border-box; }
body { margin: 0; background: var(--paper); color: var(--ink); font: 15px/1.45 system-ui, sans-serif; }
header { position: sticky; top: 0; z-index: 1; display: flex; flex-wrap: wrap; gap: .5rem 1.25rem; align-items: center; padding: .6rem 1rem; background: var(--paper); border-bottom: 1px solid var(--line); }
@media (max-width: 600px) { header { position: static; } }
h1 { margin: 0; font-size: 1.1rem; }
label { display: flex; gap: .4rem; align-items: center; color: var(--quiet); }
input, select { font: inherit; color: inherit; background: var(--card); border: 1px solid var(--line); border-radius: 4px; padding: .25rem .4rem; max-width: 100%; }
output { margin-left: auto; color: var(--quiet); }
section { display: grid; grid-template-columns: repeat(auto-fill, minmax(min(9rem, 100%), 1fr)); gap: .75rem; padding: 1rem; }
section > h2, section > p { grid-column: 1 / -1; margin: 0; overflow-wrap: anywhere; }
section > p { color: var(--quiet); white-space: pre-line; }
h2 { font-size: 1.25rem; }
article { min-width: 0; padding: .6rem; background: var(--card); border: 1px solid var(--line); border-radius: 6px; }
article:has(pre):not(:has(details:not([open]))) { grid-column: 1 / -1; }
article > h3 { margin: 0; font: 600 .85rem/1.3 ui-monospace, monospace; overflow-wrap: anywhere; }
article > p { margin: .1rem 0 .5rem; color: var(--quiet); font-size: .8rem; }
img { zoom: 2; max-width: 100%; image-rendering: pixelated; background: repeating-conic-gradient(var(--dark) 0 25%, var(--light) 0 50%) 0 0 / 8px 8px; }
pre { margin: 0; max-height: 24rem; overflow: auto; font: .8rem/1.4 ui-monospace, monospace; white-space: pre-wrap; overflow-wrap: anywhere; }
details pre { white-space: pre; }
article:has(audio) { grid-column: span 2; }
@media (max-width: 600px) { article:has(audio) { grid-column: 1 / -1; } }
audio { display: block; width: 100%; height: 2.5rem; }
summary { cursor: pointer; color: var(--quiet); font-size: .8rem; }
[hidden] { display: none; }
:focus-visible { outline: 2px solid #2f6fdb; outline-offset: 2px; }
</style>
</head>
<body>
<header>
<h1>Resources</h1>
<label>Find <input id=\"find\" type=\"search\" placeholder=\"name, id or text\" autocomplete=\"off\"></label>
<label>Type <select id=\"kinds\"><option value=\"\">all</option></select></label>
<label><input id=\"pairs\" type=\"checkbox\"> same ids side by side</label>
<output id=\"count\" aria-live=\"polite\"></output>
</header>
<main>
";

/// What is after them: which resources are shown.
pub(crate) const FOOT: &str = "\
</main>
<script>\"use strict\";
const find = document.getElementById(\"find\"), kinds = document.getElementById(\"kinds\"), pairs = document.getElementById(\"pairs\"), count = document.getElementById(\"count\");
const sections = [...document.querySelectorAll(\"section\")];
const all = [...document.querySelectorAll(\"article\")].map((article, place) => {
  const title = article.querySelector(\"h3\").textContent.match(/^'((?:\\\\.|[^'])*)' (-?\\d+)/) || [\"\", \"\", \"0\"];
  return { article, place, section: article.parentNode, kind: title[1], id: Number(title[2]), text: article.textContent.toLowerCase() };
});
const counts = new Map();
for (const one of all) counts.set(one.kind, (counts.get(one.kind) || 0) + 1);
for (const [kind, many] of [...counts].sort()) kinds.add(new Option(`${kind} (${many})`, kind));
function choose() {
  const wanted = find.value.toLowerCase();
  let shown = 0;
  for (const one of all) {
    one.article.hidden = !((!kinds.value || one.kind === kinds.value) && one.text.includes(wanted));
    if (!one.article.hidden) shown += 1;
  }
  for (const section of sections) section.hidden = all.length > shown && !section.querySelector(\"article:not([hidden])\");
  count.textContent = `${shown} of ${all.length} resources`;
}
function order() {
  const rows = [...all].sort((a, b) => pairs.checked ? a.id - b.id || a.place - b.place : a.place - b.place);
  for (const one of rows) one.section.append(one.article);
}
find.addEventListener(\"input\", choose);
kinds.addEventListener(\"change\", choose);
pairs.addEventListener(\"change\", order);
choose();
</script>
</body>
</html>
";
