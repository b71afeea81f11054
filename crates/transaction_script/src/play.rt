// An event on the table.
ghost use Rattle.std.specs.Prelude.{◌≡◌, take};
ghost use Rattle.transactions.specs.Table.{numbers_of, result_of, after_reply};
ghost use Rattle.transaction_script.specs.Play.{outcome_of, reporting, playing};

use crate::event::Event;
use std::fmt;
use transactions::{Answer, Refusal, Step, Table};

// What is printed.
#[derive(Clone, Copy, PartialEq, Eq)]
pub enum Said {
    // Nothing at all, which is a line's answer too; the program does not come to display it (`Script::end_line`).
    Nothing,
    // `ok`
    Done,
    // `no event`
    Unknown,
    Answer(Result<Answer, Refusal>),
}

impl fmt::Display for Said {
    // The line, with its end.
    fn fmt<W: fmt::Write>(&self, f: &mut fmt::Formatter<W>) -> fmt::Result {
        match *self {
            Said::Nothing => Ok(()),
            Said::Done => f.write_str("ok\n"),
            Said::Unknown => f.write_str("no event\n"),
            Said::Answer(Ok(Answer::Opened(number))) => writeln!(f, "opened {number}"),
            Said::Answer(Ok(Answer::Allowed)) => f.write_str("allowed\n"),
            Said::Answer(Ok(Answer::GivenUp)) => f.write_str("given up\n"),
            Said::Answer(Ok(Answer::Answered(number))) => writeln!(f, "answered {number}"),
            Said::Answer(Ok(Answer::Late(number))) => writeln!(f, "late {number}"),
            Said::Answer(Ok(Answer::Announced)) => f.write_str("announced\n"),
            Said::Answer(Ok(Answer::Stray)) => f.write_str("stray\n"),
            Said::Answer(Err(why)) => writeln!(f, "refused {}", why.number()),
        }
    }
}

#[derive(Clone, Copy, PartialEq, Eq)]
pub struct Played {
    pub said: Said,
    pub table: Table,
}

impl From<Step> for Played {
    ghost from_gives = { λ step played. outcome_of played ≡ reporting (result_of step) };

    fn from(step: Step) -> Played {
        Played {
            said: Said::Answer(step.answer),
            table: step.table,
        }
    }
}

// The table is told a body of so many octets, or of all that there are.
fn told(table: Table, count: usize, body: &[u8]) -> Step
    ensures { result_of result ≡ after_reply (numbers_of table) (take count body.now) }
{
    table.reply(body.get(..count).unwrap_or(body))
}

#[tactic(auto, unfolding(crate::specs::Play::playing))]
pub fn play(table: Table, event: Option<Event>, body: &[u8]) -> Played
    ensures { outcome_of result ≡ playing (numbers_of table) event body.now }
{
    let Some(event) = event else {
        return Played {
            said: Said::Unknown,
            table,
        };
    };
    match event {
        Event::Nothing => Played {
            said: Said::Nothing,
            table,
        },
        Event::Open => Played::from(table.open()),
        Event::Reset => Played::from(table.reset()),
        Event::GiveUp(number) => Played::from(table.give_up(number)),
        Event::Body(count) => Played::from(told(table, count, body)),
        Event::Fresh => Played {
            said: Said::Done,
            table: Table::fresh(),
        },
        Event::Put(table) => Played {
            said: Said::Done,
            table,
        },
    }
}
