// The table by value: each call takes a table and hands the next one back.
ghost use Rattle.std.specs.Prelude.{true, ◌≡◌, ◌<◌};
ghost use Rattle.transactions.specs.Answer.{refusal_number};
ghost use Rattle.transactions.specs.Table.{numbers_of, fresh, rules, mark_at, free_number, result_of, refused, by_mark, after_open, after_reset, after_give_up, after_reply};

use crate::answer::{Answer, Refusal};
use crate::kind::BodyKind;
use crate::number_set::{has, with, without};

#[derive(Clone, Copy, PartialEq, Eq)]
pub struct Table {
    // The numbers under which a question waits for its reply, as the bits of weight 2^1 to 2^15.
    pub waiting: u16,
    // Those whose question was given up, and whose reply has not come yet.
    pub given_up: u16,
    // A reset was allowed, and its announcement has not come yet.
    pub resetting: bool,
}

// What a call answers, and the table after it.
#[derive(Clone, Copy, PartialEq, Eq)]
pub struct Step {
    pub answer: Result<Answer, Refusal>,
    pub table: Table,
}

impl Table {
    // The highest transaction number. 0 is for what nobody asked for.
    pub const MAX_NUMBER: u8 = 15;

    // All numbers are free, and no reset is under way.
    #[tactic(auto, unfolding(crate::specs::Table::numbers_of, crate::specs::Table::marks_of, crate::specs::NumberSet::digits))]
    pub fn fresh() -> Table
        ensures { numbers_of result ≡ fresh }
    {
        Table {
            waiting: 0,
            given_up: 0,
            resetting: false,
        }
    }

    // Whether 0 is in neither set, and no number in both.
    pub fn keeps_rules(self) -> bool
        ensures { result ≡ rules (numbers_of self) }
    {
        (self.waiting | self.given_up) % 2 == 0 && self.waiting & self.given_up == 0
    }

    // The lowest free number from 1 on.
    fn lowest_free(self) -> Option<u8>
        ensures { result ≡ free_number (numbers_of self) }
    {
        let free = !(self.waiting | self.given_up | 1);
        let number = free.trailing_zeros() as u8;
        (number <= Table::MAX_NUMBER).then_some(number)
    }

    fn refused(self, why: Refusal) -> Step
        ensures { result_of result ≡ refused (refusal_number why) (numbers_of self) }
    {
        Step {
            answer: Err(why),
            table: self,
        }
    }

    // A number for a question, which is to be sent at once. A host that cannot send it keeps the table that it had before.
    #[tactic(auto, unfolding(crate::specs::Table::after_open, crate::specs::Table::numbers_of))]
    pub fn open(self) -> Step
        ensures { result_of result ≡ after_open (numbers_of self) }
    {
        if !self.keeps_rules() {
            return self.refused(Refusal::BadTable);
        }
        if self.resetting {
            return self.refused(Refusal::Resetting);
        }
        match self.lowest_free() {
            Some(number) => Step {
                answer: Ok(Answer::Opened(number)),
                table: Table {
                    waiting: with(self.waiting, number),
                    ..self
                },
            },
            None => self.refused(Refusal::Full),
        }
    }

    // Leave to send one reset. A host that cannot send it keeps the table that it had before.
    #[tactic(auto, unfolding(crate::specs::Table::after_reset, crate::specs::Table::numbers_of))]
    pub fn reset(self) -> Step
        ensures { result_of result ≡ after_reset (numbers_of self) }
    {
        if !self.keeps_rules() {
            return self.refused(Refusal::BadTable);
        }
        if self.resetting {
            return self.refused(Refusal::Resetting);
        }
        Step {
            answer: Ok(Answer::Allowed),
            table: Table {
                resetting: true,
                ..self
            },
        }
    }

    // Nobody waits for the reply to this number any more.
    #[tactic(auto, unfolding(crate::specs::Table::after_give_up))]
    pub fn give_up(self, number: u8) -> Step
        ensures { result_of result ≡ after_give_up (numbers_of self) number }
    {
        if !self.keeps_rules() {
            return self.refused(Refusal::BadTable);
        }
        if number > Table::MAX_NUMBER || !has(self.waiting, number) {
            return self.refused(Refusal::NotWaiting);
        }
        Step {
            answer: Ok(Answer::GivenUp),
            table: Table {
                waiting: without(self.waiting, number),
                given_up: with(self.given_up, number),
                ..self
            },
        }
    }

    // A reply under a number, by what the table has of it.
    fn reply_to(self, number: u8) -> Step
        requires { (number < 16) × (rules (numbers_of self) ≡ true) }
        ensures { result_of result ≡ by_mark (mark_at (numbers_of self) number) number (numbers_of self) }
    {
        if has(self.waiting, number) {
            return Step {
                answer: Ok(Answer::Answered(number)),
                table: Table {
                    waiting: without(self.waiting, number),
                    ..self
                },
            };
        }
        if has(self.given_up, number) {
            return Step {
                answer: Ok(Answer::Late(number)),
                table: Table {
                    given_up: without(self.given_up, number),
                    ..self
                },
            };
        }
        Step {
            answer: Ok(Answer::Stray),
            table: self,
        }
    }

    // A body that came from the box.
    #[tactic(auto, using(crate::proofs::LawsKind::reply_below), unfolding(crate::specs::Table::after_reply))]
    pub fn reply(self, body: &[u8]) -> Step
        ensures { result_of result ≡ after_reply (numbers_of self) body.now }
    {
        if !self.keeps_rules() {
            return self.refused(Refusal::BadTable);
        }
        match BodyKind::of(body) {
            BodyKind::Announcement => Step {
                answer: Ok(Answer::Announced),
                table: Table::fresh(),
            },
            BodyKind::Reply(number) => self.reply_to(number),
            BodyKind::Other => Step {
                answer: Ok(Answer::Stray),
                table: self,
            },
        }
    }
}
