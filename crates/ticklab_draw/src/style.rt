// The style sheet of a picture.

/// Letters, and the classes of words, shapes, lanes and arrows.
pub const SHEET: &str = "<style>
text{font:11px ui-monospace,'DejaVu Sans Mono',Menlo,Consolas,'Courier New',monospace;text-anchor:middle;fill:#111;paint-order:stroke;stroke:#fff;stroke-width:3px;stroke-linejoin:round}
.title{font-size:15px;font-weight:bold;text-anchor:start}.left{text-anchor:start;fill:#444}.step{fill:#666}
.name{font-size:15px;font-weight:bold;text-anchor:start;fill:currentColor}.strong{font-weight:bold}.order{font-weight:bold;fill:currentColor}
.in{fill:#fff;stroke:none;font-weight:bold}.on{stroke:none}.trap{fill:#c4001a;font-weight:bold}
.f{fill:currentColor;stroke:currentColor;stroke-width:2}.o{fill:#fff;stroke:currentColor;stroke-width:2}
.x{stroke:#c4001a;stroke-width:5;fill:none}
.flag{fill:#ffe27a;stroke:#7a5c00;stroke-width:1.2}.lane{fill:none;stroke-width:2}.when{fill:none;stroke-width:1;opacity:.4}
.arrow{fill:none;stroke:#777;stroke-width:1.2;marker-end:url(#tip)}
</style>
";

/// The tip of arrows, and a white page.
pub const BACKDROP: &str =
    "<defs><marker id=\"tip\" viewBox=\"0 0 8 8\" refX=\"7\" refY=\"4\" markerWidth=\"7\" markerHeight=\"7\" orient=\"auto\"><path d=\"M0 0L8 4L0 8Z\" fill=\"#777\"/></marker></defs>
<rect width=\"100%\" height=\"100%\" fill=\"#fff\"/>
";
