// Each number is executed once.
ghost use Rattle.std.specs.Prelude.{◌≡◌, ◌≢◌, ◌<◌, ◌+◌, ◌==◌, true};
ghost use Rattle.trace_book.specs.declared.operation.Op.TheVariants as Op;
ghost use Rattle.instance_choices.specs.Turns.{IsNext, IsOther};

use trace_book::Op;

/// What an instance does with an operation.
#[derive(Clone, Copy)]
pub enum OpTurn {
    /// It is the one that was done last: what it gave is answered again.
    Again,
    /// It was done long ago, or comes too early: nothing is done.
    Ignored,
    Commits,
    Aborts,
    /// It works on the content.
    Works,
}

/// What an instance that has done the operations up to a number does with that of number `n`.
pub fn turn_of(done: u32, n: u32, op: &Op) -> OpTurn
    ensures again { result ≡ OpTurn.Again → n ≡ done }
    ensures ignored { result ≡ OpTurn.Ignored → IsOther done n }
    ensures commits { result ≡ OpTurn.Commits → IsNext done n × (op.now ≡ Op.Commit) }
    ensures aborts { result ≡ OpTurn.Aborts → IsNext done n × (op.now ≡ Op.Abort) }
    ensures works { result ≡ OpTurn.Works → IsNext done n × (op.now ≢ Op.Commit) × (op.now ≢ Op.Abort) }
{
    if n == done {
        return OpTurn::Again;
    }
    if !is_next(n, done) {
        return OpTurn::Ignored;
    }
    match op {
        Op::Commit => OpTurn::Commits,
        Op::Abort => OpTurn::Aborts,
        _ => OpTurn::Works,
    }
}

/// It is the number after the last one that was done.
pub fn is_next(n: u32, done: u32) -> bool
    ensures value { result ≡ (n == done + 1) }
    ensures few { result ≡ true → done < 4294967295 }
{
    n > done && n - done == 1
}
