// The letters that fit a window, and how far it was possible where none does.
ghost use Rattle.std.specs.Prelude.{◌<◌, length};
ghost use Rattle.mealy.specs.Machine.{Letters};
ghost use Rattle.mealy.specs.Word.{Has, Holds};
ghost use Rattle.coder.specs.Limits.{max_outputs};
ghost use Rattle.fitting.specs.Tables.{TablesAsked, PresentAsked, PresentGiven, FittingIn, Tables, DecodeGiven};

use crate::Answer;
use crate::inner::answer::{UNCOUNTED, answer_of};
use crate::inner::sets::{between, follow, how_far, image, lead};
use crate::inner::tables::Sets;

impl Sets {
    // The letters that fit at the present place, whose received letter is o, from the states of a set.
    fn present(&self, o: usize, set: u16, after: &[u8]) -> u16
        requires { PresentAsked self.now.next self.now.predecessors self.now.letters o after.now }
        ensures { PresentGiven self.now.next self.now.predecessors self.now.letters o set after.now result }
    {
        if after.len() == 0 {
            return image(&self.letters, o, set);
        }
        between(
            &self.next,
            &self.letters,
            o,
            set,
            lead(&self.predecessors, after),
        )
    }

    // The letters that fit at place b of a window.
    pub fn fitting(&self, window: &[u8], b: usize) -> u16
        requires { TablesAsked self.now.next self.now.successors self.now.predecessors self.now.letters × Letters max_outputs window.now × (b < length window.now) }
        ensures { Holds (FittingIn self.now.next self.now.successors self.now.letters (Has self.now.starts) window.now b) result }
    {
        let set = follow(&self.successors, &window[..b], self.starts);
        if set == 0 {
            return 0;
        }
        let o = usize::from(window[b]);
        self.present(o, set, &window[b + 1..])
    }

    // Decodes a window with b letters before the present one. Only where no letter fits it is gone over once more, for the count.
    pub fn decode(&self, window: &[u8], b: usize) -> Answer
        requires { Tables self.now.next self.now.successors self.now.predecessors self.now.letters self.now.starts × Letters max_outputs window.now × (b < length window.now) }
        ensures { DecodeGiven self.now.next self.now.successors self.now.predecessors self.now.letters self.now.starts
            window.now b result }
    {
        let fit = self.fitting(window, b);
        if fit == 0 {
            return answer_of(fit, how_far(&self.successors, window, self.starts));
        }
        answer_of(fit, UNCOUNTED)
    }
}
