// The picture: a title, the road's strip, the grid of cells with its axes, and a legend. One SVG, with all that it needs in it.

use crate::scale::Scale;
use crate::{axes, cells, legend, strip};
use overview::Course;
use std::io;
use std::io::Write;

// How wide the picture is, and how high the legend with its axis above it.
const WIDE: u64 = 10400;

const FOOT: u64 = 2000;

// Colours from free to jammed, each darker than the one before; light letters on the dark ones. A hatch of dark and light lines is seen on all.
const STYLE: &str = "<style>
text { font: 110px sans-serif; fill: #1b1b1b; }
.title { font-size: 160px; font-weight: bold; }
.middle { text-anchor: middle; }
.end { text-anchor: end; }
.paper { fill: #ffffff; }
.road { fill: #8a8f98; stroke: #ffffff; stroke-width: 10; }
.lane { stroke: #ffffff; stroke-width: 8; stroke-dasharray: 60 40; }
.on { fill: #0b6e99; stroke: #0b6e99; stroke-width: 12; }
.off { fill: #ffffff; stroke: #0b6e99; stroke-width: 12; }
.axis { stroke: #1b1b1b; stroke-width: 8; fill: none; }
.A rect { fill: #eef8e6; }
.B rect { fill: #f6d66f; }
.C rect { fill: #f4a94f; }
.D rect { fill: #ea7a3a; }
.E rect { fill: #b9342e; }
.F rect { fill: #560d35; }
.E text, .F text { fill: #ffffff; }
rect.edge { stroke: #ffffff; stroke-width: 6; }
rect.closed { fill: url(#closed); }
</style>
<defs>
<pattern id='closed' width='70' height='70' patternUnits='userSpaceOnUse' patternTransform='rotate(45)'>
<rect x='0' width='12' height='70' fill='#1b1b1b' fill-opacity='0.75'/>
<rect x='12' width='12' height='70' fill='#ffffff' fill-opacity='0.75'/>
</pattern>
</defs>";

fn print_head<W: Write>(output: &mut W, high: u64) -> io::Result<()> {
    let pixels_wide = WIDE / 10;
    let pixels_high = high / 10;
    writeln!(
        output,
        "<svg xmlns='http://www.w3.org/2000/svg' width='{pixels_wide}' height='{pixels_high}' viewBox='0 0 {WIDE} {high}' role='img'>"
    )?;
    writeln!(output, "<title>Level letters by segment and period</title>")?;
    writeln!(output, "{STYLE}")?;
    writeln!(
        output,
        "<rect class='paper' width='{WIDE}' height='{high}'/>"
    )?;
    writeln!(
        output,
        "<text class='title' x='1000' y='330'>Level letters by segment and period</text>"
    )?;
    writeln!(
        output,
        "<text x='1000' y='560'>Traffic runs to the right, periods of 15 minutes run down; each letter is that of a period's end.</text>"
    )
}

pub fn print<W: Write>(output: &mut W, course: &Course) -> io::Result<()> {
    let scale = Scale::of(course);
    let foot = scale.down(scale.periods);
    print_head(output, foot.saturating_add(FOOT))?;
    strip::print(output, &scale)?;
    cells::print(output, &scale, course)?;
    axes::print(output, &scale)?;
    legend::print(output, foot)?;
    writeln!(output, "</svg>")
}
