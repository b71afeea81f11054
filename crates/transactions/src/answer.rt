// What the table answers where it does not refuse, and why it refuses.
ghost use Rattle.std.specs.Prelude.{◌≡◌};
ghost use Rattle.transactions.specs.Answer.{refusal_number};

// Why a call is refused, with 02's number of each reason.
#[derive(Clone, Copy, PartialEq, Eq)]
pub enum Refusal {
    // The table breaks its own rules.
    BadTable = 11,
    // None of 1 to 15 is free.
    Full = 31,
    // The number to give up is not waiting.
    NotWaiting = 32,
    // A reset is under way.
    Resetting = 33,
}

#[derive(Clone, Copy, PartialEq, Eq)]
pub enum Answer {
    // Of `open`: a question may be asked under this number.
    Opened(u8),
    // Of `reset`: a reset may be sent.
    Allowed,
    // Of `give_up`: the number is given up. It is free again when its reply or an announcement comes.
    GivenUp,
    // Of `reply`, like all that follow: a reply to the question of this number, which is free again.
    Answered(u8),
    // A reply to a question that was given up. Its number is free again.
    Late(u8),
    // The box announced a reset. All numbers are free.
    Announced,
    // A body that answers nothing.
    Stray,
}

impl Refusal {
    // 02's number of the refusal.
    pub fn number(self) -> u32
        ensures { result ≡ refusal_number self }
    {
        self as u32
    }
}
