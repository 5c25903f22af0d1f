// Ids of a graph: those of components and of buffers are numbers from 0, below that of the widgets that a plan has at most.

/// The most components, buffers and pipelines of a plan, which share their ids.
const MOST: usize = 288;

/// A set of ids.
#[derive(Clone, Copy)]
pub struct Ids {
    marks: [bool; MOST],
}

impl Ids {
    pub fn none() -> Ids {
        Ids {
            marks: [false; MOST],
        }
    }

    pub fn has(&self, id: u32) -> bool {
        match self.marks.get(id as usize) {
            Some(mark) => *mark,
            None => false,
        }
    }

    pub fn add(&mut self, id: u32) {
        if let Some(mark) = self.marks.get_mut(id as usize) {
            *mark = true;
        }
    }

    /// Whether an end of an edge is there and among them.
    pub fn has_end(&self, end: Option<u32>) -> bool {
        match end {
            Some(id) => self.has(id),
            None => false,
        }
    }

    /// Adds an end of an edge, where it is there.
    pub fn add_end(&mut self, end: Option<u32>) {
        if let Some(id) = end {
            self.add(id);
        }
    }
}
