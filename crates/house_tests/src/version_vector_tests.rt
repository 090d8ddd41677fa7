ghost use Rattle.std.specs.Prelude.{◌≡◌, ◌≤◌};

use crate::checks::holds;
use locus_ids::SiteId;
use std::process::Abort;
use version_vector::{Ordering4, Spent, Vector};

#[test]
fn vectors_compare_and_join(rt: HostRuntime) {
    let a: Vector<3> = Vector::from_parts([2, 0, 1]);
    let b: Vector<3> = Vector::from_parts([1, 1, 1]);
    let low: Vector<3> = Vector::from_parts([1, 0, 1]);
    holds(&rt, a.compare(&b) == Ordering4::Beside);
    holds(&rt, a.join(&b).parts() == [2, 1, 1]);
    holds(&rt, low.compare(&a) == Ordering4::Below);
    holds(&rt, a.compare(&low) == Ordering4::Above);
    holds(&rt, Vector::<3>::zero().compare(&a) == Ordering4::Below);
}

#[test]
fn a_counter_is_spent_at_its_greatest_value(rt: HostRuntime) {
    let site = second_site(&rt);
    let full: Vector<3> = Vector::from_parts([0, 4_294_967_295, 0]);
    let last: Vector<3> = Vector::from_parts([7, 4_294_967_294, 7]);
    holds(&rt, full.part(site) == 4_294_967_295);
    holds(&rt, full.bump(site) == Err(Spent));
    holds(
        &rt,
        last.bump(site) == Ok(Vector::from_parts([7, 4_294_967_295, 7])),
    );
}

fn second_site<R: Abort>(rt: &R) -> SiteId
    ensures { result ≤ 3 }
{
    SiteId::new(2).expect(rt, "no site")
}
