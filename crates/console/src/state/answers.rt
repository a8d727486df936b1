// The calls of a past, each made on a console.
ghost use Rattle.std.specs.Prelude.{◌≡◌, length};
ghost use Rattle.console.specs.Panel.{panel_answer, panel_in};
ghost use Rattle.console.specs.Played.{Answers, ClearedIn};
ghost use Rattle.console.specs.View.{standing};

use crate::call::{Answer, Call};
use crate::faults::Refusal;
use crate::state::Console;
use clearing::NUMBERS;
use display::LINE_ROOM;

impl Console {
    // A clearing with as much scratch as the call has; more than 448 numbers make no difference.
    fn clear_in(&mut self, file: &[u8], room: usize) -> Result<i64, Refusal>
        ensures { ClearedIn (standing self.old) file.now room result (standing self.new) }
    {
        let mut scratch = [0; NUMBERS];
        self.clearing(file, &mut scratch[..room.min(NUMBERS)])
    }

    // The panel line in the first bytes of a line of zeros.
    fn panel_in(&self, room: usize, line: &mut [u8]) -> Result<usize, Refusal>
        requires { length line.old ≡ 64 }
        ensures answer { result ≡ panel_answer (standing self.now) room }
        ensures after { line.new ≡ panel_in (standing self.now) room line.old }
    {
        self.panel(&mut line[..room.min(LINE_ROOM)])
    }

    // Makes one call.
    pub(crate) fn answer_to(&mut self, call: &Call<'_>) -> Answer
        ensures { Answers (standing self.old) call.now result (standing self.new) }
    {
        match call {
            Call::Clearing { file, scratch } => Answer::Clearing(self.clear_in(file, *scratch)),
            Call::Tree { file } => Answer::Tree(self.tree(file)),
            Call::Price { file } => Answer::Price(self.price(file)),
            Call::Panel { room } => {
                let mut line = [0; LINE_ROOM];
                let length = self.panel_in(*room, &mut line);
                Answer::Panel(length, line)
            }
        }
    }
}
