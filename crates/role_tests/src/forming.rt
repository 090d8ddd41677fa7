// The epochs of a site, for the script of their tests. It is one of three, site 1 where the script doesn't say another.
use crate::checks::given;
use crate::script::{Room, say, tell};
use crate::words::{byte, epoch_of, long, say_if, say_number, short};
use locus_ids::{Config, EpochId, Links, Members, SiteId, Sites};
use merge_protocol::{EpochError, EpochState, FormingHeader, InstallAnswer};
use role_shown::{boots, config, epoch, links, site};
use role_steps::InEpoch;
use std::alloc::Global;
use std::process::Abort;
use wire_messages::Outbox;

/// The epochs of a site at work.
pub struct Forming {
    state: EpochState,
    config: Config,
    me: SiteId,
    links: Links,
    alloc: Global,
}

// Taken apart in one place: where one is dropped, the prover sees one call.
impl Drop for Forming {
    fn drop(self) {
        let Forming {
            state: _,
            config: _,
            me: _,
            links: _,
            alloc: _,
        } = self;
    }
}

impl Room for Forming {
    fn new<R: Abort + Eprint>(rt: &R, alloc: Global) -> Forming {
        Forming {
            state: EpochState::new(alloc, 1),
            config: given(rt, config(alloc)),
            me: given(rt, site(1)),
            links: links(1, 1, 1),
            alloc,
        }
    }

    fn does<R: Abort + Eprint>(&mut self, rt: &R, words: &[&str], text: &mut String) {
        let mut out = Outbox::new(self.alloc);
        match words {
            ["shows", seen @ ..] => self.shows(rt, seen, text),
            ["hears", said @ ..] => self.hears(rt, said, &mut out, text),
            _ => self.acts(rt, words, &mut out),
        }
        tell(rt, self.alloc, &out, text);
    }
}

impl Forming {
    /// What comes to the site.
    fn hears<R: Abort + Eprint>(
        &mut self,
        rt: &R,
        words: &[&str],
        out: &mut Outbox,
        text: &mut String,
    ) {
        let (state, me, links) = (&mut self.state, self.me, &self.links);
        match words {
            ["poll", from, id] => {
                let asked = header(rt, from, epoch_of(rt, id));
                state.on_poll(me, links, asked, out).expect(rt, "no memory");
            }
            ["promise", from, reach] => {
                state.on_promise(header(rt, from, whole().id), Sites(short(rt, reach)))
            }
            ["refuse", id, promised] => {
                let (id, promised) = (epoch_of(rt, id), epoch_of(rt, promised));
                match state.on_refuse(me, links, id, promised, out) {
                    Ok(_) => (),
                    Err(EpochError::NoNumber) => say(rt, text, "no number"),
                    Err(_) => rt.panic("no memory"),
                }
            }
            ["joined", from, id] => {
                state.on_joined(given(rt, site(byte(rt, from))), epoch_of(rt, id))
            }
            ["reportok", group] => state.on_report_ok(byte(rt, group)),
            _ => rt.panic("nothing to hear"),
        }
    }

    /// What the site does by itself, and what else becomes of it.
    fn acts<R: Abort + Eprint>(&mut self, rt: &R, words: &[&str], out: &mut Outbox) {
        let (state, me) = (&mut self.state, self.me);
        match words {
            ["merges"] => {
                state
                    .start_merge(me, &self.links, out)
                    .expect(rt, "no epoch");
            }
            ["parts"] => {
                state
                    .start_part(me, &self.links, out)
                    .expect(rt, "no epoch");
            }
            ["joins"] => state
                .join(&self.config, me, whole(), out)
                .expect(rt, "no memory"),
            ["installs"] => state
                .send_installs(me, &whole(), out)
                .expect(rt, "no memory"),
            ["leaves"] => {
                state.leave(me, out).expect(rt, "no memory");
            }
            ["ticks"] => {
                state.repeat_polls(me, out).expect(rt, "no memory");
                state
                    .repeat_installs(me, &whole(), out)
                    .expect(rt, "no memory");
            }
            ["answers"] => {
                let packet = state.joined_packet(me, header(rt, "1", whole().id));
                out.send(packet).expect(rt, "no memory");
            }
            ["is", me] => self.me = given(rt, site(byte(rt, me))),
            ["links", three] => self.links = links(1, 1, long(rt, three)),
            _ => rt.panic("nothing to do"),
        }
    }

    /// What can be seen of the site.
    fn shows<R: Abort + Eprint>(&mut self, rt: &R, words: &[&str], text: &mut String) {
        let (state, me) = (&mut self.state, self.me);
        match words {
            ["decided"] => say_epoch(rt, text, state.pass_over(me, &self.links)),
            ["epoch"] => say_epoch(rt, text, state.epoch()),
            ["in", id] => say_if(rt, text, state.is_in(epoch_of(rt, id))),
            ["boot"] => say_if(rt, text, state.boot() == 1),
            ["reports"] => {
                for group in state.reports() {
                    say_number(rt, text, Some(usize::from(*group)));
                }
            }
            ["install", id, two] => {
                let boot = boots(1, long(rt, two), 1);
                let asked = header(rt, "1", epoch_of(rt, id));
                let answer = state.on_install(me, asked, &Members { boot });
                say(rt, text, answer_word(answer))
            }
            _ => rt.panic("nothing to see"),
        }
    }
}

/// What the first boot of a site sends to form an epoch.
fn header<R: Abort + Eprint>(rt: &R, from: &str, id: EpochId) -> FormingHeader {
    FormingHeader {
        from: given(rt, site(byte(rt, from))),
        from_boot: 1,
        id,
    }
}

/// Epoch 1.1.1 of the three sites.
fn whole() -> InEpoch {
    InEpoch {
        id: epoch(1, 1, 1),
        members: Members {
            boot: boots(1, 1, 1),
        },
    }
}

fn say_epoch<R: Abort>(rt: &R, text: &mut String, found: Option<InEpoch>) {
    let word = match found {
        Some(epoch) if epoch == whole() => "1.1.1 of all",
        Some(_) => "another",
        None => "none",
    };
    say(rt, text, word);
}

fn answer_word(answer: InstallAnswer) -> &'static str {
    match answer {
        InstallAnswer::Joins => "joins",
        InstallAnswer::Again => "again",
        InstallAnswer::Nothing => "nothing",
    }
}
