// A trace as a picture: time downwards, a column for each set, a bar for each call.
ghost use Rattle.std.specs.Prelude.{◌≤◌};

use crate::error::LookError;
use crate::names::Names;
use crate::reading::Reading;
use crate::tree::{named_line, write};
use look_text::{Piece, add, add_bytes, add_line, line_of};
use mix_bits::{Isa, NoMemory};
use std::alloc::Global;
use std::io::{BufRead, Write};
use trace_lines::{Crossing, Event};

/// How many calls are drawn.
const MOST: u32 = 1000;

/// The height of a row, which each call and each return takes.
const ROW: u32 = 16;

/// Where the first row stands.
const TOP: u32 = 48;

/// How far a nested bar stands to the right of the one around it, and up to which depth.
const STEP: u32 = 14;

const DEEPEST: u32 = 24;

/// A call that is open: where its bar begins.
#[derive(Clone, Copy)]
struct Bar {
    x: u32,
    row: u32,
}

/// Where a text of no call stands.
const LEFT: u32 = 20;

/// How far a text stands to the right of its call's bar.
const INDENT: u32 = 14;

/// How wide a letter is at most.
const LETTER: u32 = 8;

/// How wide a picture is at least.
const NARROWEST: u32 = 1400;

/// What stands behind the size of a picture.
const STYLE: &str = "\" font-family=\"monospace\" font-size=\"12\">
<style>svg { background: #fff } rect { fill: #48c; stroke: #fff }
text { paint-order: stroke; stroke: #fff; stroke-width: 3px }</style>
<text x=\"20\" y=\"20\" font-weight=\"bold\">68K</text>
<text x=\"720\" y=\"20\" font-weight=\"bold\">PowerPC</text>
";

/// A picture in the making. Texts stand before bars, so that a long one can be read where it meets one.
#[derive(Drop)]
struct Picture {
    alloc: Global,
    bars: Vec<u8>,
    texts: Vec<u8>,
    /// Where the longest text ends.
    right: u32,
    open: Vec<Bar>,
    row: u32,
    calls: u32,
}

/// Writes a trace as an SVG file. Of more than a thousand calls the first thousand are drawn, and a note says so.
pub fn write_picture<R: BufRead + Drop, W: Write>(
    alloc: Global,
    reading: &mut Reading<R>,
    names: &Names,
    out: &mut W,
) -> Result<(), LookError> {
    let mut picture = Picture::new(alloc);
    draw(reading, names, &mut picture, out)
}

/// Draws each event, and writes what was drawn.
fn draw<R: BufRead + Drop, W: Write>(
    reading: &mut Reading<R>,
    names: &Names,
    picture: &mut Picture,
    out: &mut W,
) -> Result<(), LookError> {
    for _ in 0..u64::MAX {
        let Some(event) = reading.next()? else {
            break;
        };
        picture.add_event(reading.text(), &event, names)?;
    }
    picture.finish()?;
    picture.write(out)
}

impl Picture {
    fn new(alloc: Global) -> Picture {
        Picture {
            alloc,
            bars: Vec::new(alloc),
            texts: Vec::new(alloc),
            right: NARROWEST,
            open: Vec::new(alloc),
            row: 0,
            calls: 0,
        }
    }

    /// Draws what an event says, as long as there were no more than a thousand calls.
    fn add_event(&mut self, line: &[u8], event: &Event, names: &Names) -> Result<(), NoMemory> {
        if let Event::Called(_) = event {
            self.calls = self.calls.saturating_add(1);
        }
        if self.calls > MOST {
            return Ok(());
        }
        let text = named_line(self.alloc, 0, names, line, event)?;
        self.add_row(event, &text)
    }

    fn add_row(&mut self, event: &Event, text: &[u8]) -> Result<(), NoMemory> {
        match event {
            Event::Called(call) => self.begin(call, text),
            Event::Returned(_, _) => self.end(text),
            _ => self.add_label(self.inside(), text),
        }?;
        self.row = self.row.saturating_add(1);
        Ok(())
    }

    fn begin(&mut self, call: &Crossing, text: &[u8]) -> Result<(), NoMemory> {
        let depth = (self.open.len() as u64).min(u64::from(DEEPEST)) as u32;
        let x = column(call.kind.callee()) + STEP * depth;
        self.open.push(Bar { x, row: self.row })?;
        self.add_label(x + INDENT, text)
    }

    /// Where a text inside of the innermost open call stands.
    fn inside(&self) -> u32 {
        match self.open.last() {
            Some(bar) => bar.x.saturating_add(INDENT),
            None => LEFT,
        }
    }

    fn end(&mut self, text: &[u8]) -> Result<(), NoMemory> {
        match self.open.pop() {
            Some(bar) => {
                self.add_bar(bar)?;
                self.add_label(bar.x.saturating_add(INDENT), text)
            }
            None => self.add_label(LEFT, text),
        }
    }

    /// Ends the bars that are still open, and says what was left out.
    fn finish(&mut self) -> Result<(), NoMemory> {
        for _ in 0..self.open.len() {
            if let Some(bar) = self.open.pop() {
                self.add_bar(bar)?;
            }
        }
        if self.calls > MOST {
            let note = note(self.alloc, self.calls)?;
            self.add_label(LEFT, &note)?;
            self.row = self.row.saturating_add(1);
        }
        Ok(())
    }

    /// A bar from its first row to this one.
    fn add_bar(&mut self, bar: Bar) -> Result<(), NoMemory> {
        let rows = self.row.saturating_sub(bar.row);
        let height = rows.saturating_mul(ROW).saturating_add(ROW - 2);
        add_line(
            &mut self.bars,
            &[
                Piece::Text("<rect x=\""),
                Piece::Number(bar.x),
                Piece::Text("\" y=\""),
                Piece::Number(height_of(bar.row)),
                Piece::Text("\" width=\"8\" height=\""),
                Piece::Number(height),
                Piece::Text("\"/>\n"),
            ],
        )
    }

    /// A text in this row, up to its line feed.
    fn add_label(&mut self, x: u32, text: &[u8]) -> Result<(), NoMemory> {
        add_text(&mut self.texts, x, self.row, text)?;
        self.right = self.right.max(end_of(x, text.len()));
        Ok(())
    }

    /// Writes the file.
    fn write<W: Write>(&self, out: &mut W) -> Result<(), LookError> {
        write(out, &self.head()?)?;
        write(out, &self.bars)?;
        write(out, &self.texts)?;
        write(out, b"</svg>\n")
    }

    /// The front of the file, which has its size.
    fn head(&self) -> Result<Vec<u8>, NoMemory> {
        line_of(
            self.alloc,
            &[
                Piece::Text("<svg xmlns=\"http://www.w3.org/2000/svg\" width=\""),
                Piece::Number(self.right),
                Piece::Text("\" height=\""),
                Piece::Number(height_of(self.row).saturating_add(TOP)),
                Piece::Text(STYLE),
            ],
        )
    }
}

/// What is said of calls that are not drawn.
fn note(alloc: Global, calls: u32) -> Result<Vec<u8>, NoMemory> {
    line_of(
        alloc,
        &[
            Piece::Text("the first 1000 of "),
            Piece::Number(calls),
            Piece::Text(" calls\n"),
        ],
    )
}

/// A text in a row.
fn add_text(texts: &mut Vec<u8>, x: u32, row: u32, text: &[u8]) -> Result<(), NoMemory> {
    add_line(
        texts,
        &[
            Piece::Text("<text x=\""),
            Piece::Number(x),
            Piece::Text("\" y=\""),
            Piece::Number(height_of(row).saturating_add(12)),
            Piece::Text("\">"),
        ],
    )?;
    for byte in text {
        add_letter(texts, *byte)?;
    }
    add(texts, "</text>\n")
}

/// A byte of a text, as XML writes it.
fn add_letter(texts: &mut Vec<u8>, byte: u8) -> Result<(), NoMemory> {
    let letter = [byte];
    let piece: &[u8] = match byte {
        b'&' => b"&amp;",
        b'<' => b"&lt;",
        b'>' => b"&gt;",
        0..=31 => b"",
        _ => &letter,
    };
    add_bytes(texts, piece)
}

/// Where the column of a set begins.
fn column(set: Isa) -> u32
    ensures { result ≤ 720 }
{
    match set {
        Isa::M68 => 20,
        Isa::Ppc => 720,
    }
}

/// Where a text ends that begins at `x`.
fn end_of(x: u32, letters: usize) -> u32 {
    let letters = u32::try_from(letters).unwrap_or(u32::MAX);
    letters.saturating_mul(LETTER).saturating_add(x)
}

/// How far down a row begins.
fn height_of(row: u32) -> u32 {
    row.saturating_mul(ROW).saturating_add(TOP)
}
