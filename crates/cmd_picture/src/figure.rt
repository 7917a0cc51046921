//! The picture of a journal.

ghost use Rattle.std.specs.Prelude.{IfOk};
ghost use Rattle.std.specs.String.{string_bytes};
ghost use Rattle.cmd_picture.specs.Pictures.{IsPicture};

use crate::layout::{Bar, Layout, Mark};
use crate::shapes::{
    LEFT, ROW, STEP, STRIP, STYLE, TOP, across, down, push_cause, push_name, push_title,
};
use path_decl::Decl;
use path_model::{Attempt, Line, OutOfMemory, Reply};
use std::alloc::Allocator;

/// The most lines that a picture shows.
pub const LINES: usize = 2_000;

/// What each picture begins with.
const BEGIN: &str = "<svg xmlns=\"http://www.w3.org/2000/svg\" ";

/// What each picture ends with.
const END: &str = "</svg>\n";

/// What a picture is made of.
#[derive(Drop)]
struct Figure<'a, A: Allocator + Copy> {
    decl: &'a Decl<A>,
    lines: &'a [Line],
    layout: &'a Layout<A>,
    /// How far the top of each lane stands below the top of the picture.
    tops: &'a [u64],
    /// How far the lines reach to the right.
    right: u64,
}

/// How far the top of each lane stands below the top of the picture, and the end of the last one.
fn tops_of<A: Allocator + Copy>(
    alloc: A,
    layout: &Layout<A>,
) -> Result<(Vec<u64, A>, u64), OutOfMemory> {
    let mut tops = Vec::with_capacity(alloc, layout.lanes.len())?;
    let mut top = TOP;
    for lane in layout.lanes.iter() {
        tops.push(top)?;
        top = top.saturating_add(down(lane.rows())).saturating_add(8);
    }
    Ok((tops, top))
}

/// What a picture says of its lines.
fn push_caption<A: Allocator + Copy>(
    out: &mut String<A>,
    shown: usize,
    all: usize,
) -> Result<(), OutOfMemory> {
    if shown < all {
        write!(out, "the first {shown} of {all} lines")?;
    } else if all == 1 {
        out.push_str("1 line")?;
    } else {
        write!(out, "{all} lines")?;
    }
    Ok(())
}

/// Appends the size of a picture, its style, and what it says of its lines.
fn push_head<A: Allocator + Copy>(
    out: &mut String<A>,
    (width, height): (u64, u64),
    shown: usize,
    all: usize,
) -> Result<(), OutOfMemory> {
    write!(
        out,
        "width=\"{width}\" height=\"{height}\" viewBox=\"0 0 {width} {height}\" role=\"img\">\n\
        {STYLE}<rect class=\"paper\" width=\"{width}\" height=\"{height}\"/>\n<text x=\"8\" y=\"18\">"
    )?;
    push_caption(out, shown, all)?;
    out.push_str("</text>\n")?;
    Ok(())
}

/// Appends the legend, below the lanes.
fn push_legend<A: Allocator + Copy>(out: &mut String<A>, y: u64) -> Result<(), OutOfMemory> {
    write!(
        out,
        "<text class=\"small\" x=\"8\" y=\"{y}\">bar: from start to finish, pale and dashed while live; \
        tick: refused start, with the number of the path; dot: use; ring: refused use or finish</text>\n"
    )?;
    Ok(())
}

impl<A: Allocator + Copy> Figure<'_, A> {
    /// The top of the lane at this place.
    fn top(&self, lane: usize) -> u64 {
        self.tops.get(lane).copied().unwrap_or(TOP)
    }

    /// Appends the number of every tenth line, and a rule below it.
    fn push_grid(&self, out: &mut String<A>, bottom: u64) -> Result<(), OutOfMemory> {
        for at in 0..self.lines.len() {
            if at % 10 == 0 {
                let (x, number) = (across(at), (at as u64).saturating_add(1));
                write!(
                    out,
                    "<line class=\"grid\" x1=\"{x}\" x2=\"{x}\" y1=\"{TOP}\" y2=\"{bottom}\"/>\
                    <text class=\"small\" x=\"{x}\" y=\"40\">{number}</text>\n"
                )?;
            }
        }
        Ok(())
    }

    /// Appends the name of each lane, and a rule above it.
    fn push_lanes(&self, out: &mut String<A>) -> Result<(), OutOfMemory> {
        let right = self.right;
        for (place, lane) in self.layout.lanes.iter().enumerate() {
            let (top, worker) = (self.top(place), lane.worker);
            let y = top.saturating_add(18);
            write!(
                out,
                "<line class=\"rule\" x1=\"8\" x2=\"{right}\" y1=\"{top}\" y2=\"{top}\"/>\
                <text x=\"8\" y=\"{y}\">worker {worker}</text>\n"
            )?;
        }
        Ok(())
    }

    /// Appends a bar.
    fn push_bar(&self, alloc: A, out: &mut String<A>, bar: &Bar) -> Result<(), OutOfMemory> {
        let Some(line) = self.lines.get(bar.from) else {
            return Ok(());
        };
        let x = across(bar.from);
        let (end, class) = match bar.to {
            Some(to) => (across(to), "bar"),
            None => (self.right, "bar live"),
        };
        let width = end.saturating_sub(x);
        let y = self.top(bar.lane).saturating_add(down(bar.row));
        let height = ROW - 6;
        write!(
            out,
            "<g><rect class=\"{class}\" x=\"{x}\" y=\"{y}\" width=\"{width}\" height=\"{height}\" rx=\"2\"/>"
        )?;
        let place = (x.saturating_add(4), y.saturating_add(12), width);
        push_name(alloc, out, self.decl, bar.op, place)?;
        push_title(alloc, out, self.decl, bar.from, line)?;
        out.push_str("</g>\n")?;
        Ok(())
    }

    /// Appends the tick of a refused start.
    fn push_tick(&self, out: &mut String<A>, mark: &Mark, reply: Reply) -> Result<(), OutOfMemory> {
        let x = across(mark.at);
        let top = self.top(mark.lane);
        let (from, to) = (top.saturating_add(4), top.saturating_add(STRIP - 4));
        let (name, y) = (x.saturating_add(5), top.saturating_add(16));
        write!(
            out,
            "<line class=\"tick\" x1=\"{x}\" x2=\"{x}\" y1=\"{from}\" y2=\"{to}\"/>\
            <text class=\"small\" x=\"{name}\" y=\"{y}\">"
        )?;
        push_cause(out, reply)?;
        out.push_str("</text>")?;
        Ok(())
    }

    /// Appends the dot of a use, or a ring if it or a finish is refused.
    fn push_dot(&self, out: &mut String<A>, mark: &Mark, reply: Reply) -> Result<(), OutOfMemory> {
        let x = across(mark.at);
        let below = match mark.row {
            Some(row) => down(row).saturating_add(ROW - 6),
            None => STRIP / 2,
        };
        let y = self.top(mark.lane).saturating_add(below);
        let class = match reply {
            Reply::Used(_) => "use",
            _ => "not",
        };
        write!(
            out,
            "<circle class=\"{class}\" cx=\"{x}\" cy=\"{y}\" r=\"4\"/>"
        )?;
        Ok(())
    }

    /// Appends the mark of a line that neither starts nor finishes an activation.
    fn push_mark(&self, alloc: A, out: &mut String<A>, mark: &Mark) -> Result<(), OutOfMemory> {
        let Some(line) = self.lines.get(mark.at) else {
            return Ok(());
        };
        out.push_str("<g>")?;
        match line.attempt {
            Attempt::Start(_) => self.push_tick(out, mark, line.reply)?,
            _ => self.push_dot(out, mark, line.reply)?,
        }
        push_title(alloc, out, self.decl, mark.at, line)?;
        out.push_str("</g>\n")?;
        Ok(())
    }

    /// Appends all bars.
    fn push_bars(&self, alloc: A, out: &mut String<A>) -> Result<(), OutOfMemory> {
        for bar in self.layout.bars.iter() {
            self.push_bar(alloc, out, bar)?;
        }
        Ok(())
    }

    /// Appends all marks.
    fn push_marks(&self, alloc: A, out: &mut String<A>) -> Result<(), OutOfMemory> {
        for mark in self.layout.marks.iter() {
            self.push_mark(alloc, out, mark)?;
        }
        Ok(())
    }

    /// Appends all that stands between what each picture begins with and what each ends with: of a journal with so many lines in all,
    /// and with its lanes down to this bottom.
    fn push_all(
        &self,
        alloc: A,
        out: &mut String<A>,
        bottom: u64,
        all: usize,
    ) -> Result<(), OutOfMemory> {
        let size = (self.right.max(LEFT + 20 * STEP), bottom.saturating_add(30));
        push_head(out, size, self.lines.len(), all)?;
        self.push_grid(out, bottom)?;
        self.push_lanes(out)?;
        self.push_bars(alloc, out)?;
        self.push_marks(alloc, out)?;
        push_legend(out, bottom.saturating_add(18))
    }
}

/// A picture with this between what each begins with and what each ends with.
fn framed<A: Allocator + Copy>(alloc: A, inside: &str) -> Result<String<A>, OutOfMemory>
    ensures { IfOk result (λ text. IsPicture (string_bytes text)) }
{
    let mut out = String::new(alloc);
    out.push_str(BEGIN)?;
    out.push_str(inside)?;
    out.push_str(END)?;
    Ok(out)
}

/// The lines that a picture of these shows: the first [`LINES`].
fn shown_of(lines: &[Line]) -> &[Line] {
    &lines[..lines.len().min(LINES)]
}

/// The SVG of a journal that has these lines first, and `all` in all: a lane for each worker, in the order of their first lines; a bar for
/// each activation, from its start to its finish, pale and dashed while it is live; a tick for a refused start, with the number of
/// the path that forbids it; a dot for a use, and a ring for a refused use or finish. Each has its line as a title. Shapes alone tell
/// all apart, and colours follow the reader's choice of light or dark. Shows the first [`LINES`] lines, and says so if there are
/// more. Any reply may follow any attempt: a line that finishes what isn't live is left out.
///
/// Fails only if allocation fails. The cost is that of the text, and for each line of a look at each lane and each bar.
pub fn draw<A: Allocator + Copy>(
    alloc: A,
    decl: &Decl<A>,
    lines: &[Line],
    all: usize,
) -> Result<String<A>, OutOfMemory>
    ensures { IfOk result (λ text. IsPicture (string_bytes text)) }
{
    let lines = shown_of(lines);
    let layout = Layout::of(alloc, lines)?;
    let (tops, bottom) = tops_of(alloc, &layout)?;
    let figure = Figure {
        decl,
        lines,
        layout: &layout,
        tops: &tops,
        right: across(lines.len()),
    };
    let mut inside = String::new(alloc);
    figure.push_all(alloc, &mut inside, bottom, all)?;
    framed(alloc, &inside)
}
