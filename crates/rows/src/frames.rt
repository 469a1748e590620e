// How far each text has come.
ghost use Rattle.std.specs.Prelude.{◌≡◌, ◌+◌, ◌^◌, ◌<◌};
ghost use Rattle.rows.specs.Frames.{frame_at, slot_begun, row_passed, piece_passed, slot_ended};

// Where a text stands in the buffer.
#[derive(Clone, Copy)]
pub struct Span {
    pub start: u32,
    pub end: u32,
}

// A captured text that is being filled: the next byte of the file, where the text begins, the next row to look at, and the slot.
#[derive(Clone, Copy)]
pub struct Progress {
    pub from: u32,
    pub origin: u32,
    pub next: u16,
    pub slot: u8,
}

// How far the text of a row has come: where it begins, how many fragments are passed, the captured text that is being filled, if any, and
// where that of each slot stands, once it is rendered. A job has as many of them on the stack as rows, so that they are small.
#[derive(Clone, Copy)]
pub struct Frame {
    pub begin: u32,
    pub passed: u32,
    pub filling: Option<Progress>,
    pub texts: [Option<Span>; 8],
}

const _: () = prove!(size_of::<Frame>() == 120);

impl Frame {
    // A text begins at a place.
    pub fn at(begin: usize) -> Frame
        requires { begin < 2 ^ 32 }
        ensures { result ≡ frame_at begin }
    {
        Frame {
            begin: begin as u32,
            passed: 0,
            filling: None,
            texts: [None; 8],
        }
    }

    // A slot's text of row k is to be filled, from a byte of the file on; it begins at a place.
    pub fn begin_slot(&mut self, k: usize, slot: usize, from: usize, at: usize)
        requires { (k < 65535) × (slot < 8) × (from < 2 ^ 32) × (at < 2 ^ 32) }
        ensures { self.new ≡ slot_begun k slot from at self.old }
    {
        self.filling = Some(Progress {
            from: from as u32,
            origin: at as u32,
            next: (k + 1) as u16,
            slot: slot as u8,
        });
    }

    // The row nested next in a captured text is found; the file goes on at a byte behind it.
    pub fn pass_row(&mut self, progress: Progress, row: usize, from: usize)
        requires { (row < 65535) × (from < 2 ^ 32) }
        ensures { self.new ≡ row_passed progress row from self.old }
    {
        self.filling = Some(Progress {
            from: from as u32,
            next: (row + 1) as u16,
            ..progress
        });
    }

    // A fragment's text is laid.
    pub fn pass_piece(&mut self)
        requires { self.old.passed + 1 < 2 ^ 32 }
        ensures { self.new ≡ piece_passed self.old }
    {
        self.passed += 1;
    }

    // A captured text is filled up to a place.
    pub fn end_slot(&mut self, progress: Progress, at: usize)
        requires { (progress.slot < 8) × (at < 2 ^ 32) × (self.old.passed + 1 < 2 ^ 32) }
        ensures { self.new ≡ slot_ended progress at self.old }
    {
        self.texts[progress.slot as usize] = Some(Span {
            start: progress.origin,
            end: at as u32,
        });
        self.filling = None;
        self.pass_piece();
    }
}
