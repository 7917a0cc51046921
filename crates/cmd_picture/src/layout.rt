//! Where each line of a journal is drawn: in the lane of its worker, in a row of that lane.

use path_model::{ActId, Attempt, Line, OpId, OutOfMemory, Reply};
use std::alloc::Allocator;

/// An activation, from the line that started it to the line that finished it. Lines count from 0.
#[derive(Clone, Copy, Debug)]
pub struct Bar {
    pub act: ActId,
    pub op: OpId,
    /// The place of its lane.
    pub lane: usize,
    /// The row of the lane.
    pub row: usize,
    pub from: usize,
    /// `None` while it is live.
    pub to: Option<usize>,
}

/// A line that neither starts nor finishes an activation.
#[derive(Clone, Copy, Debug)]
pub struct Mark {
    pub lane: usize,
    /// The row of the activation that the line names; `None` if it isn't live in this lane, or if the line names none.
    pub row: Option<usize>,
    pub at: usize,
}

/// The lane of a worker.
#[derive(Drop)]
pub struct Lane<A: Allocator + Copy> {
    pub worker: u32,
    /// For each row, whether its activation is live.
    busy: Vec<bool, A>,
}

impl<A: Allocator + Copy> Lane<A> {
    /// How many activations of the worker were live at once, at most.
    pub fn rows(&self) -> usize {
        self.busy.len()
    }

    /// Takes the first row that is free.
    fn take_row(&mut self) -> Result<usize, OutOfMemory> {
        let free = self.busy.iter().position(|busy| !*busy);
        let Some(row) = free else {
            let row = self.busy.len();
            self.busy.push(true)?;
            return Ok(row);
        };
        self.set_row(row, true);
        Ok(row)
    }

    /// Takes or frees a row.
    fn set_row(&mut self, row: usize, busy: bool) {
        if let Some(place) = self.busy.get_mut(row) {
            *place = busy;
        }
    }
}

/// Where all lines are drawn.
#[derive(Drop)]
pub struct Layout<A: Allocator + Copy> {
    pub lanes: Vec<Lane<A>, A>,
    pub bars: Vec<Bar, A>,
    pub marks: Vec<Mark, A>,
}

impl<A: Allocator + Copy> Layout<A> {
    /// Lays out these lines: a lane for each worker, in the order of their first lines. Fails only if allocation fails. Each line is
    /// looked for among the lanes, and among the bars if it names an activation.
    pub fn of(alloc: A, lines: &[Line]) -> Result<Layout<A>, OutOfMemory> {
        let mut layout = Layout {
            lanes: Vec::new(alloc),
            bars: Vec::new(alloc),
            marks: Vec::new(alloc),
        };
        for (at, line) in lines.iter().enumerate() {
            layout.take(alloc, at, line)?;
        }
        Ok(layout)
    }

    /// Lays out one line more.
    fn take(&mut self, alloc: A, at: usize, line: &Line) -> Result<(), OutOfMemory> {
        let lane = self.lane_of(alloc, line.worker)?;
        match (line.attempt, line.reply) {
            (Attempt::Start(op), Reply::Started(act)) => self.start(lane, at, op, act),
            (Attempt::Finish(act), Reply::Finished) => {
                self.finish(at, act);
                Ok(())
            }
            (Attempt::Apply(act, _), _) | (Attempt::Finish(act), _) => self.mark_at(lane, at, act),
            (Attempt::Start(_), _) => self.mark(lane, None, at),
        }
    }

    /// The place of a worker's lane, which is added if it isn't there.
    fn lane_of(&mut self, alloc: A, worker: u32) -> Result<usize, OutOfMemory> {
        if let Some(lane) = self.lanes.iter().position(|lane| lane.worker == worker) {
            return Ok(lane);
        }
        let lane = self.lanes.len();
        self.lanes.push(Lane {
            worker,
            busy: Vec::new(alloc),
        })?;
        Ok(lane)
    }

    /// A bar begins.
    fn start(&mut self, lane: usize, from: usize, op: OpId, act: ActId) -> Result<(), OutOfMemory> {
        let row = match self.lanes.get_mut(lane) {
            Some(lane) => lane.take_row()?,
            None => 0,
        };
        self.bars.push(Bar {
            act,
            op,
            lane,
            row,
            from,
            to: None,
        })?;
        Ok(())
    }

    /// The place of the activation's bar, if it is live.
    fn live(&self, act: ActId) -> Option<usize> {
        self.bars
            .iter()
            .position(|bar| bar.act == act && bar.to.is_none())
    }

    /// A bar ends.
    fn finish(&mut self, at: usize, act: ActId) {
        let Some(place) = self.live(act) else {
            return;
        };
        let Some(bar) = self.bars.get_mut(place) else {
            return;
        };
        bar.to = Some(at);
        let (lane, row) = (bar.lane, bar.row);
        if let Some(lane) = self.lanes.get_mut(lane) {
            lane.set_row(row, false);
        }
    }

    /// The row of the activation's bar, if that is live in this lane.
    fn row_of(&self, lane: usize, act: ActId) -> Option<usize> {
        let bar = self.bars.get(self.live(act)?)?;
        (bar.lane == lane).then_some(bar.row)
    }

    /// A mark on the activation's bar, if that is live in this lane.
    fn mark_at(&mut self, lane: usize, at: usize, act: ActId) -> Result<(), OutOfMemory> {
        let row = self.row_of(lane, act);
        self.mark(lane, row, at)
    }

    fn mark(&mut self, lane: usize, row: Option<usize>, at: usize) -> Result<(), OutOfMemory> {
        self.marks.push(Mark { lane, row, at })?;
        Ok(())
    }
}
