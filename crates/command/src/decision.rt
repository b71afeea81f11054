// A body on a link that is set up. It sees that link and what all links share, and no other link.
ghost use Rattle.std.specs.Prelude.{true, ◌≡◌, ◌≤◌, ◌<◌, length};
ghost use Rattle.property.specs.Rule.{row_rule};
ghost use Rattle.device.specs.State.{max_reply};
ghost use Rattle.device.specs.Rules.{settings_rule, link_rule};
ghost use Rattle.command.specs.Decision.{Did, status_decision, decision_of, reached, decide};

use device::{Effect, Link, View};
use method::{Performed, perform_on};
use property::{Status, commands};
use reply::{Asked, write_reply, write_status};
use request::{Request, verdict_of};

// The effect on the whole box, the link, and how many octets the reply has.
#[derive(Clone, Copy, PartialEq, Eq)]
pub struct Decided {
    pub effect: Effect,
    pub link: Link,
    pub len: usize,
}

// A status, which becomes the link's last one.
#[tactic(auto, unfolding(crate::specs::Decision::status_decision))]
fn report_status(link: Link, header: u8, status: u8, out: &mut [u8]) -> Decided
    requires { max_reply ≤ length out.old }
    ensures { Did (status_decision link header status) result out.old out.new }
{
    let len = write_status(out, header, status);
    Decided {
        effect: Effect::None,
        link: Link { status, ..link },
        len,
    }
}

// Steps 6 to 8.
#[tactic(auto, using(crate::proofs::LawsContent::link_left, crate::proofs::LawsContent::content_size), unfolding(crate::specs::Decision::reached, crate::specs::Decision::concluded, crate::specs::Decision::decision_of))]
fn reach(view: View, asked: Asked, out: &mut [u8]) -> Decided
    requires { (settings_rule view.settings ≡ true) × (link_rule view.link ≡ true) × (row_rule asked.row ≡ true) × (max_reply ≤ length out.old) }
    ensures { Did (decision_of view asked.entry.header (reached view asked.entry.header asked.entry.command asked.entry.row asked.entry.payload.now)) result out.old out.new }
{
    match perform_on(view.link, asked.command, asked.row, asked.payload) {
        Err(refusal) => report_status(view.link, asked.header, refusal.number(), out),
        Ok(Performed { effect, link }) => {
            let len = write_reply(out, view.after(effect, link), asked);
            Decided { effect, link, len }
        }
    }
}

// Steps 2 to 8.
#[tactic(auto, using(request::proofs::LawsVerdict::payload_start), unfolding(crate::specs::Decision::decide, crate::specs::Decision::judged, crate::specs::Decision::judged_by, crate::specs::Decision::decision_of))]
pub fn decide(view: View, body: &[u8], out: &mut [u8]) -> Decided
    requires { (settings_rule view.settings ≡ true) × (link_rule view.link ≡ true) × (0 < length body.now) × (max_reply ≤ length out.old) }
    ensures { Did (decide view body.now) result out.old out.new }
{
    let header = body[0];
    match verdict_of(body) {
        Err(refusal) => report_status(view.link, header, refusal.status().number(), out),
        Ok(Request::Noop) => report_status(view.link, header, Status::Ok.number(), out),
        Ok(Request::Reset) => {
            // The announcement has transaction 0 and link 0, whoever asked.
            let announced = Status::ResetSoftware.number();
            let len = write_status(out, commands::SPINEL_HEADER, announced);
            Decided {
                effect: Effect::Reset,
                link: view.link,
                len,
            }
        }
        Ok(
            Request::Reach {
                command,
                row,
                start,
            },
        ) => {
            let asked = Asked {
                header,
                command,
                row,
                payload: &body[start..],
            };
            reach(view, asked, out)
        }
    }
}
