//! The parts of a page that are the same on each: its look, the meaning of its colours, and what it does when something on it is
//! clicked. Nothing in them is fetched from elsewhere.

/// What stands before the name of the log in the title of the page.
pub(crate) const OPENING: &str = "<!DOCTYPE html>
<html lang='en'>
<head>
<meta charset='utf-8'>
<meta name='viewport' content='width=device-width, initial-scale=1'>
<title>crashbpf: ";

/// What stands after the name of the log in the title: the style.
pub(crate) const STYLE: &str = "</title>
<style>
:root{color-scheme:light dark;--paper:#fff;--ink:#1c2024;--faint:#59636b;--line:#d5dade;--even:#dfe4e8;--odd:#8f9ba5;--write:#dbe8fb;--write-ink:#1d3655;--discard:#e3d8f2;--discard-ink:#402a5c;--mark:#fff0b8;--mark-ink:#574500;--flush:#2f5f9f;--s0:#7fbf93;--s1:#ffd978;--s2:#ffb347;--s3:#f4803c;--s4:#d8452f;--s5:#9c1420;--aim:#fff8d8;--wrong:#b3261e;--good:#17653a}
@media (prefers-color-scheme:dark){:root{--paper:#15181b;--ink:#e3e7ea;--faint:#a3adb6;--line:#343a40;--even:#2c3238;--odd:#6a7681;--write:#1f3350;--write-ink:#c3d9f5;--discard:#3b2b50;--discard-ink:#dccbf2;--mark:#443a10;--mark-ink:#f5e3a0;--flush:#77a7e6;--s0:#3f8758;--s1:#8a6d1c;--s2:#b0741c;--s3:#cf6526;--s4:#e04f3a;--s5:#ff7b7b;--aim:#2c2a18;--wrong:#ff9d96;--good:#7fd6a0}}
*{box-sizing:border-box}
body{margin:0 auto;max-width:76rem;padding:1.5rem;background:var(--paper);color:var(--ink);font:15px/1.5 system-ui,sans-serif}
h1{font-size:1.35rem;margin:0 0 .5rem}
h2{font-size:1.1rem;margin:2.2rem 0 .3rem}
pre,code,li{font:13px/1.5 ui-monospace,monospace}
pre{margin:0;overflow-x:auto}
p{margin:.3rem 0}
a{color:inherit}
:focus-visible{outline:2px solid var(--flush);outline-offset:1px}
small,.about,.none{color:var(--faint);font-size:13px}
.none{font-size:15px;font-weight:600}
.bad,.order{color:var(--wrong);font-weight:600}
.good{color:var(--good);font-weight:600}
.cure a{font-weight:600}
.log{display:flex;flex-wrap:wrap;row-gap:3px;margin:.7rem 0 .4rem;font:11px/18px ui-monospace,monospace}
.log>*{height:26px;border:0 solid var(--even);border-block-width:4px;text-decoration:none;overflow:hidden;white-space:nowrap}
.log>.o{border-color:var(--odd)}
.e{min-width:22px;padding:0 3px;text-align:center;color:var(--faint)}
.e.write{background:var(--write);color:var(--write-ink)}
.e.discard{background:repeating-linear-gradient(135deg,var(--discard) 0 3px,var(--paper) 3px 5px);color:var(--discard-ink)}
.e.fua{text-decoration:underline!important}
.log>.flush{border-left:3px solid var(--flush)}
.log>.mark{background:var(--mark);color:var(--mark-ink);border-left:2px solid var(--mark-ink);max-width:16em;text-overflow:ellipsis;text-align:left;unicode-bidi:isolate}
.log>.lack{margin:0 2px;padding:0 4px;border:0;line-height:26px;background:var(--flush);color:var(--paper);font-weight:600}
.c{width:11px;background:var(--share)}
i.c{width:3px}
.c:hover,.e:hover,.lack:hover{filter:brightness(.9)}
.s0{--share:var(--s0)}.s1{--share:var(--s1)}.s2{--share:var(--s2)}.s3{--share:var(--s3)}.s4{--share:var(--s4)}.s5{--share:var(--s5)}
.many .e{min-width:5px;padding:0 1px;font-size:0;border-right:1px solid var(--paper)}
.many i.c{width:2px}
.many .lack{width:7px;padding:0;font-size:0}
.key{display:flex;flex-wrap:wrap;gap:.2rem 1.1rem;color:var(--faint);font-size:12px;margin-bottom:1rem}
.key b{display:inline-block;width:11px;height:14px;margin-right:.35em;vertical-align:-.15em;background:var(--share)}
.key .flush{border-left:3px solid var(--flush);width:3px}
.key .lack{background:var(--flush)}
.key .mark{background:var(--mark);border-left:2px solid var(--mark-ink)}
.key .write{background:var(--write)}
.key .discard{background:repeating-linear-gradient(135deg,var(--discard) 0 3px,var(--paper) 3px 5px)}
.key .s0{width:3px}
.key .even{background:var(--even)}
.key .odd{background:var(--odd)}
details{border-bottom:1px solid var(--line)}
summary{cursor:pointer;padding:.25rem .2rem}
.cut>summary{display:flex;flex-wrap:wrap;gap:0 1rem;align-items:center}
.cut>summary>b{min-width:5.5rem}
.cut>summary>span{min-width:9rem}
.cut>summary::before{content:'';width:11px;height:1.2em;background:var(--share)}
.cut{content-visibility:auto;contain-intrinsic-size:auto 34px}
.cut>div{padding:0 0 .6rem 1.4rem;scroll-margin-top:7rem}
.cut details{border:0}
.cut pre{margin:.2rem 0 .6rem;padding:.6rem .8rem;border-left:3px solid var(--line)}
.sides{display:flex;flex-wrap:wrap;gap:0 1.2rem;margin:.4rem 0 0 .8rem;font:13px/1.5 ui-monospace,monospace}
.wrong{color:var(--wrong)}
.sides .wrong,pre .wrong{font-weight:600}
progress{width:7rem;accent-color:var(--s4)}
ol{list-style:none;margin:0;padding:0}
li{content-visibility:auto;contain-intrinsic-size:auto 20px;white-space:pre-wrap}
li:target,details:has(>:target){background:var(--aim)}
.lack:target{outline:3px solid var(--ink)}
@media (max-width:600px){body{padding:.8rem}.cut>div{padding-left:.3rem}.cut pre{padding:.5rem .4rem;font-size:11px}}
";

/// The style of cases and their parts.
pub(crate) const CASE_STYLE: &str = ".case{margin:.2rem 0 .6rem}
.case .log{margin:.2rem 0}
.p{padding:0 4px;margin-right:1px;background:var(--line);color:var(--ink);font-weight:400}
.p.kept{background:var(--s0);color:#000}
.p.some{background:var(--s2);color:#000}
.p.lost{background:var(--s5);color:var(--paper)}
.log>.p{border-block-width:0;line-height:26px}
.log>.p.in{border-left:3px solid var(--flush)}
";

/// What stands between the style and the name of the log in the first line.
pub(crate) const STYLE_END: &str = "</style>
</head>
<body>
<header>
<h1>Crash images of a log: ";

/// What the colours and lines of writes, discards and flushes mean.
pub(crate) const LEGEND: &str =
    "<p class='key'><span><b class='write'></b>write</span><span><b class='discard'></b>discard</span><span><u>17</u> FUA</span><span><b class='flush'></b>flush</span>";

/// What the colours of the parts of a case mean.
pub(crate) const CASE_KEYS: &str = "<p class='log'><b class='p lost'>lost or torn</b>
<b class='p kept'>kept</b>
<b class='p some'>some of both</b>
<b class='p free'>either</b>
<b class='p in'>a flush before it helps</b>
</p>
";

/// What stands after the list of entries: a script that opens the cut to which a link leads, shows the line of an entry beside
/// the pointer, and leads from cell to cell of the row of entries by the arrow keys. Without it the page has the same text.
pub(crate) const CLOSING: &str = "</main>
<script>
addEventListener('hashchange',show);
addEventListener('DOMContentLoaded',show);
function show(){
  const aim=document.getElementById(location.hash.slice(1));
  if(!aim)return;
  for(let at=aim;at;at=at.parentElement)if(at.localName=='details')at.open=true;
  const first=aim.querySelector('details');
  if(first)first.open=true;
  (aim.closest('details,li')||aim).scrollIntoView({block:'start'});
}
addEventListener('mouseover',event=>{
  const entry=event.target.closest('.e');
  if(entry&&!entry.title)entry.title=document.getElementById(entry.hash.slice(1)).textContent;
});
addEventListener('keydown',event=>{
  const row=event.target.closest('.log');
  const ahead={ArrowRight:true,Home:true,ArrowLeft:false,End:false}[event.key];
  if(!row||ahead===undefined||event.altKey||event.ctrlKey||event.metaKey)return;
  const step=ahead?'nextElementSibling':'previousElementSibling';
  let at=event.target[step];
  if(event.target==row||event.key=='Home'||event.key=='End')at=ahead?row.firstElementChild:row.lastElementChild;
  while(at&&at.localName!='a')at=at[step];
  if(at)at.focus();
  event.preventDefault();
});
</script>
</body>
</html>
";
