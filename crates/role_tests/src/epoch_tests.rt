// epoch_rules and partition_protocol.
use crate::checks::{given, holds};
use epoch_rules::{
    PollAnswer, Promised, boot_in, is_epoch_below, is_linked, next_number, reached, same_epoch,
    site_at,
};
use locus_ids::Sites;
use partition_protocol::{PollRound, fully_connected};
use role_shown::{boots, epoch, links, site};

#[test]
fn ids_go_by_number_then_site_then_boot(rt: HostRuntime) {
    for (low, high) in [
        (epoch(1, 2, 1), epoch(1, 3, 1)),
        (epoch(1, 3, 1), epoch(2, 1, 1)),
        (epoch(2, 1, 1), epoch(2, 1, 2)),
        (epoch(1, 9, 9), epoch(2, 1, 1)),
    ] {
        holds(&rt, is_epoch_below(low, high));
        holds(&rt, !is_epoch_below(high, low));
        holds(&rt, !same_epoch(low, high));
        holds(&rt, same_epoch(high, high));
    }
}

#[test]
fn the_greatest_number_has_none_above_it(rt: HostRuntime) {
    holds(&rt, next_number(epoch(2, 1, 1)) == Some(3));
    holds(&rt, next_number(epoch(4_294_967_295, 1, 1)) == None);
}

/// What a site that has promised 2.2.1 answers a poll.
fn polled(number: u32, site: u8, boot: u32) -> PollAnswer {
    let promised = Promised {
        id: epoch(2, 2, 1),
        installed: false,
    };
    promised.on_poll(epoch(number, site, boot))
}

#[test]
fn a_poll_is_promised_once_and_lower_ones_are_refused(rt: HostRuntime) {
    let own = epoch(2, 2, 1);
    holds(&rt, polled(2, 2, 1) == PollAnswer::Again);
    holds(&rt, polled(2, 2, 2) == PollAnswer::Promise);
    holds(&rt, polled(3, 1, 1) == PollAnswer::Promise);
    holds(&rt, polled(2, 1, 9) == PollAnswer::Refuse(own));
    holds(&rt, polled(1, 9, 9) == PollAnswer::Refuse(own));
}

#[test]
fn an_install_is_of_the_promised_id_and_this_boot(rt: HostRuntime) {
    for (installed, id, listed, wanted) in [
        (false, epoch(1, 1, 1), 4, true),
        (true, epoch(1, 1, 1), 4, false),
        (false, epoch(1, 1, 1), 3, false),
        (false, epoch(1, 1, 2), 4, false),
    ] {
        let promised = Promised {
            id: epoch(1, 1, 1),
            installed,
        };
        holds(&rt, promised.may_install(id, listed, 4) == wanted);
    }
}

#[test]
fn a_list_of_boots_names_the_connected_sites(rt: HostRuntime) {
    let list = boots(1, 0, 5);
    holds(&rt, boot_in(&list, given(&rt, site(3))) == 5);
    holds(&rt, is_linked(&list, given(&rt, site(1))));
    holds(&rt, !is_linked(&list, given(&rt, site(2))));
    holds(&rt, site_at(15).get() == 16);
    holds(&rt, reached(&links(1, 0, 5)) == Sites(0b101));
}

/// Of these sites, where each reaches itself and those of its mask, or has promised nothing.
fn connected(set: u16, reaches: [Option<u16>; 3]) -> u16 {
    let [one, two, three] = reaches;
    let mut promises = [None; 16];
    promises[0] = one.map(Sites);
    promises[1] = two.map(Sites);
    promises[2] = three.map(Sites);
    fully_connected(Sites(set), &promises).0
}

#[test]
fn all_of_a_chosen_set_reach_each_other(rt: HostRuntime) {
    let all = Some(0b111);
    for (set, reaches, wanted) in [
        (0b111, [all, Some(0b011), Some(0b101)], 0b011),
        (0b111, [all, all, all], 0b111),
        (0b111, [all, Some(0b010), Some(0b101)], 0b010),
        (0b111, [Some(0b101), all, all], 0b101),
        (0b110, [None, Some(0b010), Some(0b110)], 0b010),
        (0b000, [all, all, all], 0b000),
    ] {
        holds(&rt, connected(set, reaches) == wanted);
    }
}

/// A round of site 1 that polls boot 1 of the sites 2 and 3.
fn round() -> PollRound {
    PollRound::new(epoch(1, 1, 1), links(0, 1, 1))
}

#[test]
fn a_round_chooses_those_that_reach_each_other(rt: HostRuntime) {
    let (one, two, three) = (
        given(&rt, site(1)),
        given(&rt, site(2)),
        given(&rt, site(3)),
    );
    let id = epoch(1, 1, 1);
    let mut round = round();
    round.on_promise(two, 1, id, Sites(0b111));
    holds(&rt, round.is_answered() == false);
    holds(&rt, round.is_awaited(three) == true);
    round.on_promise(three, 1, id, Sites(0b111));
    holds(&rt, round.is_answered() == true);
    holds(&rt, round.chosen_set(one, &links(1, 1, 1)) == Sites(0b111));
    // Where site 2 doesn't reach site 3, that one is left out.
    round.on_promise(two, 1, id, Sites(0b011));
    holds(&rt, round.chosen_set(one, &links(1, 1, 1)) == Sites(0b011));
    let chosen = round.chosen_members(one, 7, Sites(0b011));
    holds(&rt, chosen.boot == boots(7, 1, 0));
}

#[test]
fn other_promises_do_not_count(rt: HostRuntime) {
    let (two, three) = (given(&rt, site(2)), given(&rt, site(3)));
    let mut round = round();
    for (from, boot, id) in [
        (three, 2, epoch(1, 1, 1)),
        (three, 1, epoch(1, 2, 1)),
        (given(&rt, site(4)), 1, epoch(1, 1, 1)),
        (given(&rt, site(1)), 1, epoch(1, 1, 1)),
    ] {
        holds(&rt, round.counts_promise(from, boot, id) == false);
        round.on_promise(from, boot, id, Sites(0b111));
    }
    holds(&rt, round.is_awaited(two) == true);
    holds(&rt, round.is_awaited(three) == true);
    holds(&rt, round.is_answered() == false);
}

#[test]
fn sites_out_of_reach_are_passed_over(rt: HostRuntime) {
    let three = given(&rt, site(3));
    let mut round = round();
    round.on_promise(given(&rt, site(2)), 1, epoch(1, 1, 1), Sites(0b111));
    // Site 3 is gone, and then it is back in another boot.
    for now in [0, 2] {
        let left = round.passed_over(&links(1, 1, now));
        holds(&rt, left.is_answered() == true);
        holds(&rt, left.polled() == links(0, 1, 0));
        holds(&rt, left.counts_promise(three, 1, left.id()) == false);
    }
}
