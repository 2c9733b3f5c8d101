// The head of every page, and its style sheet.

/// What stands before the style sheet. Nothing is loaded from elsewhere, and no script runs but the one of the text whose
/// SHA-256 follows.
pub const OPENING: &str = "<!DOCTYPE html>
<html lang=\"en\">
<head>
<meta charset=\"utf-8\">
<meta name=\"viewport\" content=\"width=device-width,initial-scale=1\">
<meta http-equiv=\"Content-Security-Policy\" content=\"default-src 'none';style-src 'unsafe-inline';script-src 'sha256-";

/// That of a page of a run that goes round for ever, and that of any other page.
pub const ROUNDS_SUM: &str = "VPCoAJiO+WVB1aqRhs2td8UgeV+P/QvO3Q2AqlrbnF0=";

pub const SCRIPT_SUM: &str = "djnvXilxUcbmNHO4n37MsXd7td3iEErr1hnUKVHBHS8=";

/// What stands between, and the end of it.
pub const OPENING_END: &str = "'\">
";

/// The style sheet, for dark and light, for narrow pages and for paper.
pub const SHEET: &str = "<style>
:root{color-scheme:light dark;--ink:#1a1a1a;--paper:#fff;--faint:#5c5c5c;--rule:#c8c8c8;--shade:#f1f1ee;--now:#ffe79a;--fault:#a80016;--link:#0b57a4}
@media (prefers-color-scheme:dark){:root{--ink:#e6e6e6;--paper:#16181b;--faint:#a5a5a5;--rule:#45484d;--shade:#202327;--now:#574a12;--fault:#ff8a8f;--link:#8ab8f0}.drawn svg{filter:invert(.91) hue-rotate(180deg)}}
*{box-sizing:border-box}
body{margin:0 auto;max-width:90rem;padding:1rem;background:var(--paper);color:var(--ink);font:16px/1.45 system-ui,sans-serif}
h1{font-size:1.4rem;margin:0 0 .4rem;overflow-wrap:anywhere}
h2{font-size:1.05rem;margin:1.2rem 0 .4rem}
summary{padding:.3rem 0;cursor:pointer}
a{color:var(--link)}
code,.listing,.told,.state td,.state th{font-family:ui-monospace,'DejaVu Sans Mono',Menlo,Consolas,monospace;font-size:.85rem}
.fault{border-left:.3rem solid var(--fault);padding-left:.6rem}
.panes{display:grid;grid-template-columns:repeat(auto-fit,minmax(min(100%,30rem),1fr));gap:0 1.5rem}
.panes>section{min-width:0}
.panes>section:last-child{grid-column:1/-1}
.box{overflow:auto;max-height:24rem;border:1px solid var(--rule);position:relative}
.listing,.told{list-style:none;margin:0;padding:0;min-width:max-content}
.listing li,.told li{white-space:pre}
.listing{counter-reset:line}
.listing[data-first='0']{counter-reset:line -1}
.listing li{counter-increment:line;padding:0 .6rem;min-height:1.45em}
.listing li::before{content:counter(line);display:inline-block;width:4ch;margin-right:1ch;text-align:right;color:var(--faint)}
.listing li::after{content:attr(data-at);margin-left:2ch;padding:0 .5ch;font-weight:bold;border-radius:.2rem;background:var(--shade)}
.listing li:not([data-at])::after{content:none}
.told a{display:block;padding:0 .6rem;color:inherit;text-decoration:none}
.told details{white-space:normal}
.told summary{white-space:pre;color:var(--faint)}
.told ol{list-style:none;margin:0;padding:0 0 0 2ch}
.told a:hover{text-decoration:underline}
.here{background:var(--now);font-weight:bold}
.state{border-collapse:collapse}
.state caption{text-align:left;padding:.2rem .6rem;white-space:nowrap}
.state td,.state th{border:1px solid var(--rule);padding:.1rem .6rem;text-align:right}
.state th{text-align:left;background:var(--shade)}
.state .kind th{background:none;padding-top:.5rem}
.state .new{background:var(--now);font-weight:bold}
.move{display:flex;flex-wrap:wrap;gap:.4rem;align-items:center;position:sticky;top:0;background:var(--paper);padding:.4rem 0;z-index:1;border-bottom:1px solid var(--rule)}
.move button{font:inherit;min-width:2.75rem;min-height:2.75rem;padding:0 .7rem;color:inherit;background:var(--shade);border:1px solid var(--faint);border-radius:.3rem}
.move button[aria-pressed=true]{background:var(--now)}
.move button:disabled{opacity:.45}
.said{flex:1 1 16rem;margin:0;overflow-wrap:anywhere;font-weight:bold}
.drawn{max-height:none}
.drawn svg{display:block;max-width:max(100%,75rem);height:auto}
.drawn g[id]{cursor:pointer}
.drawn .here{outline:2px solid #d08a00;outline-offset:3px}
:focus-visible{outline:3px solid var(--link);outline-offset:1px}
[hidden]{display:none!important}
@media print{.move{display:none!important}.box{max-height:none;overflow:visible;border:0}.listing,.told{min-width:0}.listing li,.told li{white-space:pre-wrap}.drawn svg{width:100%;height:auto;filter:none}body{max-width:none}}
</style>
";
