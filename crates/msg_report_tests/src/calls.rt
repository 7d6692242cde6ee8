// The pieces that the answers to a calls file are put in.
ghost use Rattle.std.specs.Prelude.{None};

use crate::equal::{Have, expect_eq};
use crate::texts::long_file;
use msg_scenario::{PutFault, Sink, read_calls, run_calls};

/// Takes every piece whole, and counts the pieces and their bytes.
#[derive(Drop)]
struct Counting {
    pieces: u64,
    bytes: usize,
}

impl Sink for Counting {
    ghost contents = { λ _. None };

    ghost failures = { λ _. 0 };

    fn put(&mut self, piece: &[u8]) -> Result<usize, PutFault> {
        self.pieces = self.pieces.saturating_add(1);
        self.bytes = self.bytes.saturating_add(piece.len());
        Ok(piece.len())
    }
}

/// Ten thousand lines of seven bytes each are put in a few pieces, and not in one: pieces are put
/// before all lines are there.
#[test]
fn lines_are_put_in_large_pieces(rt: HostRuntime) {
    let rt = &rt;
    let (_, file) = long_file(rt, r#"Ok 10000 ["update"] {"limit":1,"calls":[*]}"#);
    let calls = read_calls(rt.alloc(), file.as_bytes()).have(rt);
    drop(file);
    let mut sink = Counting {
        pieces: 0,
        bytes: 0,
    };
    expect_eq(rt, run_calls(rt.alloc(), &calls, &mut sink), Ok(()));
    let few = (2..=4).contains(&sink.pieces);
    expect_eq(
        rt,
        (sink.bytes, sink.pieces, few),
        (70_000, sink.pieces, true),
    );
    drop((calls, sink));
}
