// "The uncached loom", in the field's term a reference machine: it has neither cache nor log, and
// recovery is judged by its copies of the lines.
ghost use Rattle.std.specs.Prelude.{◌<◌};

// The most lines that the machine has: those of a board of 300 words with one log entry.
const LINE_CAPACITY: usize = 296;

// Copies are kept of the epochs p to e - 1, at most 16 since s - P is at most 16: that of an epoch
// at its number modulo 16.
const COPIES: usize = 16;

// "State: N lines, running epoch e, persisted epoch p, copies of the lines by epoch." N stands beside arrays, since a
// machine is copied at each cut that is tried, and the copy of a Vec may fail.
#[derive(Clone, Copy)]
pub struct Reference {
    pub line_count: u64,
    pub running_epoch: u64,
    pub persisted_epoch: u64,
    pub lines: [u64; LINE_CAPACITY],
    copies: [[u64; LINE_CAPACITY]; COPIES],
}

// Where the copy of an epoch is kept.
fn copy_place(epoch: u64) -> usize
    ensures { result < 16 }
{
    epoch as usize % COPIES
}

impl Reference {
    // "A fresh one, as format leaves the board: lines zero, e = 1, p = 0, copy 0 the lines."
    pub fn fresh(lines: u64) -> Reference {
        Reference {
            line_count: lines,
            running_epoch: 1,
            persisted_epoch: 0,
            lines: [0; LINE_CAPACITY],
            copies: [[0; LINE_CAPACITY]; COPIES],
        }
    }

    // "Store: line a becomes the value." This and the next three are told of accepted calls: "All else, refused and
    // cut calls too, changes nothing."
    pub fn store(&mut self, address: u64, value: u64) {
        if address >= self.line_count {
            return;
        }
        if let Some(line) = self.lines.get_mut(address as usize) {
            *line = value;
        }
    }

    // "Commit: the lines become copy e; e rises by one."
    pub fn commit(&mut self) {
        self.copies[copy_place(self.running_epoch)] = self.lines;
        self.running_epoch = self.running_epoch.wrapping_add(1);
    }

    // "Scan with a value not 0: p is that value."
    pub fn scan(&mut self, value: u64) {
        if value != 0 {
            self.persisted_epoch = value;
        }
    }

    // "Power-up: the lines become copy p; later copies are forgotten; e = p + 1." Forgotten: none
    // is read before a commit has written it anew.
    pub fn power_up(&mut self) {
        self.lines = self.copies[copy_place(self.persisted_epoch)];
        self.running_epoch = self.persisted_epoch.wrapping_add(1);
    }

    // After Intel HEX records "the crash rule starts again, the uncached loom's p being the board's P and copy p the
    // board's lines as they then stand": a commit in epoch p makes that copy.
    pub fn restart(&mut self, board_lines: &[u64], persisted: u64) {
        self.lines = [0; LINE_CAPACITY];
        for (line, word) in self.lines.iter_mut().zip(board_lines.iter()) {
            *line = *word;
        }
        self.persisted_epoch = persisted;
        self.running_epoch = persisted;
        self.commit();
    }

    // The word of a line now; 0 where there is no such line.
    pub fn line(&self, address: u64) -> u64 {
        if address >= self.line_count {
            return 0;
        }
        self.lines.get(address as usize).copied().unwrap_or(0)
    }

    // The persisted epoch p.
    pub fn persisted(&self) -> u64 {
        self.persisted_epoch
    }
}
