// What is drawn once, and used in each frame.
ghost use Rattle.std.specs.Prelude.{◌≡◌, ◌++◌, OnOk};
ghost use Rattle.ticklab_draw.specs.labels.Shapes.{drawn_once, marks, nest, told};

use crate::writing::{Added, push};

/// Adds the words on how to read the picture, the style, and the shapes of the frames of `n` processes.
#[tactic(auto, unfolding(crate::specs::labels::Shapes::drawn_once))]
pub fn push_shapes(out: &mut Vec<u8>, n: u8) -> Added
    ensures { OnOk result (out.new.items ≡ out.old.items ++ drawn_once n) }
{
    push(out, told(n))?;
    push(out, STYLE)?;
    push(out, nest(n))?;
    push(out, marks(n))
}

// How to read the picture, for readers of the file and above the frames.
fn told(n: u8) -> &'static str
    ensures { result.now ≡ told n }
{
    if n < 5 { TOLD_OF_CYCLES } else { TOLD_OF_ROWS }
}

// The cycles, behind the processes of each frame.
fn nest(n: u8) -> &'static str
    ensures { result.now ≡ nest n }
{
    match n {
        0..=1 => ONE_PLACE,
        2 => ONE_CYCLE,
        3 => TWO_CYCLES,
        4 => THREE_CYCLES,
        _ => DIGITS,
    }
}

// The processes, and the mark on one.
fn marks(n: u8) -> &'static str
    ensures { result.now ≡ marks n }
{
    match n {
        0..=4 => PROCESSES,
        5 => ROW_OF_FIVE,
        _ => ROW_OF_SIX,
    }
}

// For readers of the file.
const TOLD_OF_CYCLES: &str =
    "<desc id='about'>A circle within the cycles is the label of a process, and a dashed one above them has none; a ring marks the process that moved. An arrow leads to the digit that dominates. The order begins with the oldest.</desc>
";

// For readers of the file.
const TOLD_OF_ROWS: &str =
    "<desc id='about'>A row has the label of a process, the digit of the outermost cycle first; a frame marks the process that moved. The order begins with the oldest.</desc>
";

// Fills differ in lightness. No text is below 11 pixels.
const STYLE: &str = "<style>
text { font-family: 'DejaVu Sans', Verdana, sans-serif; font-size: 12px; fill: #222 }
.move { font-size: 13px; font-weight: bold }
.told { font-family: 'DejaVu Sans Mono', Menlo, monospace }
.cycle { fill: #4a7fb5; fill-opacity: .07; stroke: #9aa7b5 }
.place { fill: #fff; stroke: #9aa7b5 }
.digit { font-size: 11px; fill: #555; text-anchor: middle }
.next { stroke: #6b7682; stroke-width: 1.2; marker-end: url(#tip) }
.process { font-weight: bold; text-anchor: middle }
.cell { text-anchor: middle }
.moved { fill: none; stroke: #000; stroke-width: 3 }
</style>
<rect width='100%' height='100%' fill='#fff'/>
";

// For 1 process.
const ONE_PLACE: &str = "<defs>
<g id='nest'>
<circle class='place' cx='96' cy='56' r='20'/>
</g>
";

// For 2 processes.
const ONE_CYCLE: &str = "<defs>
<marker id='tip' viewBox='0 0 8 8' refX='7' refY='4' markerWidth='5' markerHeight='5' orient='auto'><path d='M0 0L8 4L0 8z' fill='#6b7682'/></marker>
<g id='ring'>
<circle class='cycle' cx='40' cy='46' r='68'/>
<path class='next' d='M46 10.4L74 58.6'/>
<path class='next' d='M68 69L12 69'/>
<path class='next' d='M6 58.6L34 10.4'/>
<circle class='place' cx='40' cy='0' r='11'/><text class='digit' x='40' y='4'>0</text>
<circle class='place' cx='80' cy='69' r='11'/><text class='digit' x='80' y='73'>1</text>
<circle class='place' cx='0' cy='69' r='11'/><text class='digit' x='0' y='73'>2</text>
</g>
<g id='nest'>
<use href='#ring' x='56' y='46'/>
</g>
";

// For 3 processes.
const TWO_CYCLES: &str = "<defs>
<marker id='tip' viewBox='0 0 8 8' refX='7' refY='4' markerWidth='5' markerHeight='5' orient='auto'><path d='M0 0L8 4L0 8z' fill='#6b7682'/></marker>
<g id='ring'>
<circle class='cycle' cx='23' cy='27' r='42'/>
<path class='next' d='M28 8.7L41 31.3'/>
<path class='next' d='M36 40L10 40'/>
<path class='next' d='M5 31.3L18 8.7'/>
<circle class='place' cx='23' cy='0' r='9'/><text class='digit' x='23' y='4'>0</text>
<circle class='place' cx='46' cy='40' r='9'/><text class='digit' x='46' y='44'>1</text>
<circle class='place' cx='0' cy='40' r='9'/><text class='digit' x='0' y='44'>2</text>
</g>
<g id='rings'>
<circle class='cycle' cx='83' cy='96' r='114'/>
<path class='next' d='M105 65.1L121 92.9'/>
<path class='next' d='M99 131L67 131'/>
<path class='next' d='M45 92.9L61 65.1'/>
<use href='#ring' x='60' y='0'/>
<use href='#ring' x='120' y='104'/>
<use href='#ring' x='0' y='104'/>
<text class='digit' x='26' y='33'>0</text>
<text class='digit' x='170' y='85'>1</text>
<text class='digit' x='53' y='183'>2</text>
</g>
<g id='nest'>
<use href='#rings' x='37' y='62'/>
</g>
";

// For 4 processes.
const THREE_CYCLES: &str = "<defs>
<marker id='tip' viewBox='0 0 8 8' refX='7' refY='4' markerWidth='5' markerHeight='5' orient='auto'><path d='M0 0L8 4L0 8z' fill='#6b7682'/></marker>
<g id='ring'>
<circle class='cycle' cx='12' cy='14' r='26'/>
<path class='next' d='M16 6.9L20 14.1'/>
<path class='next' d='M16 21L8 21'/>
<path class='next' d='M4 14.1L8 6.9'/>
<circle class='place' cx='12' cy='0' r='7'/><text class='digit' x='12' y='4'>0</text>
<circle class='place' cx='24' cy='21' r='7'/><text class='digit' x='24' y='25'>1</text>
<circle class='place' cx='0' cy='21' r='7'/><text class='digit' x='0' y='25'>2</text>
</g>
<g id='rings'>
<circle class='cycle' cx='44' cy='51' r='66'/>
<path class='next' d='M58.1 38.2L61.9 44.8'/>
<path class='next' d='M48 69L40 69'/>
<path class='next' d='M26.1 44.8L29.9 38.2'/>
<use href='#ring' x='32' y='0'/>
<use href='#ring' x='64' y='55'/>
<use href='#ring' x='0' y='55'/>
<text class='digit' x='8' y='15'>0</text>
<text class='digit' x='97' y='44'>1</text>
<text class='digit' x='27' y='106'>2</text>
</g>
<g id='outer'>
<circle class='cycle' cx='124' cy='143' r='160'/>
<path class='next' d='M158.1 109.8L169.9 130.2'/>
<path class='next' d='M136 189L112 189'/>
<path class='next' d='M78.1 130.2L89.9 109.8'/>
<use href='#rings' x='80' y='0'/>
<use href='#rings' x='160' y='138'/>
<use href='#rings' x='0' y='138'/>
<text class='digit' x='42' y='56'>0</text>
<text class='digit' x='243' y='122'>1</text>
<text class='digit' x='86' y='263'>2</text>
</g>
<g id='nest'><use href='#outer' x='44' y='64'/>
</g>
";

// For five and six processes.
const DIGITS: &str = "<defs>
<g id='digit-0' class='cell'><rect width='16' height='20' fill='#eef4fb' stroke='#9aa7b5'/><text x='8' y='15'>0</text></g>
<g id='digit-1' class='cell'><rect width='16' height='20' fill='#f6c9a0' stroke='#9aa7b5'/><text x='8' y='15'>1</text></g>
<g id='digit-2' class='cell'><rect width='16' height='20' fill='#5f9e6e' stroke='#9aa7b5'/><text x='8' y='15'>2</text></g>
<text id='absent' x='18' y='15'>none</text>
";

// Each process with its label and without one.
const PROCESSES: &str =
    "<g id='process-0' class='process'><circle r='11' fill='#17305c'/><text y='4' style='fill: #fff'>0</text></g>
<g id='absent-0' class='process'><circle r='10' fill='#fff' stroke='#777' stroke-dasharray='3 2'/><text y='4'>0</text></g>
<g id='process-1' class='process'><circle r='11' fill='#a8441a'/><text y='4' style='fill: #fff'>1</text></g>
<g id='absent-1' class='process'><circle r='10' fill='#fff' stroke='#777' stroke-dasharray='3 2'/><text y='4'>1</text></g>
<g id='process-2' class='process'><circle r='11' fill='#58a06c'/><text y='4' style='fill: #000'>2</text></g>
<g id='absent-2' class='process'><circle r='10' fill='#fff' stroke='#777' stroke-dasharray='3 2'/><text y='4'>2</text></g>
<g id='process-3' class='process'><circle r='11' fill='#f1cf5b'/><text y='4' style='fill: #000'>3</text></g>
<g id='absent-3' class='process'><circle r='10' fill='#fff' stroke='#777' stroke-dasharray='3 2'/><text y='4'>3</text></g>
<circle id='moved' class='moved' r='13'/>
</defs>
<text x='8' y='20'>A filled circle is the label of a process, a dashed one has none. An arrow leads to the digit that dominates. The order begins with the oldest.</text>
";

// A mark round a row of four digits.
const ROW_OF_FIVE: &str = "<rect id='moved' class='moved' x='-5' y='-2' width='96' height='24'/>
</defs>
<text x='8' y='20'>A row has the label of a process, the digit of the outermost cycle first. The order begins with the oldest.</text>
";

// A mark round a row of five digits.
const ROW_OF_SIX: &str = "<rect id='moved' class='moved' x='-5' y='-2' width='114' height='24'/>
</defs>
<text x='8' y='20'>A row has the label of a process, the digit of the outermost cycle first. The order begins with the oldest.</text>
";
