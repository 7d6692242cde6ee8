// Ports in the order of their numbers.
ghost use Rattle.std.specs.Prelude.{◌≡◌};
ghost use Rattle.std.specs.List.{range_with_len};

use msg_function::Port;

/// These ports, of which the first has the number 0, the second 1, and so on. The check refuses
/// other numbers: so a function's constants can't be given in another order than its parts are.
pub fn in_order<const N: usize>(numbers: [usize; N], ports: [Port; N]) -> [Port; N]
    requires order { numbers ≡ range_with_len 0 N }
    ensures ports { result ≡ ports.entry }
{
    let _ = numbers;
    ports
}
