// The four operations and the two sides. These are public for the step. An operation is a number here as in the record, which may have any.
ghost use Rattle.std.specs.Prelude.{◌≡◌};
ghost use Rattle.record.specs.Operation.{is_push, own_null, far_null, neighbour, wall, in_range, order_fits};

use logic::pick;

pub fn is_push(operation: u8) -> bool
    ensures { result ≡ is_push operation }
{
    (operation == 0) | (operation == 2)
}

pub fn own_null(operation: u8) -> u32
    ensures { result ≡ own_null operation }
{
    pick(operation < 2, 1, 0)
}

pub fn far_null(operation: u8) -> u32
    ensures { result ≡ far_null operation }
{
    pick(operation < 2, 0, 1)
}

// The right's k is 1 or more; at 0 the definition's difference, and so this, stays at 0.
pub fn neighbour_of(operation: u8, k: u16) -> u32
    ensures { result ≡ neighbour operation k }
{
    if operation < 2 {
        if k == 0 {
            return 0;
        }
        return k as u32 - 1;
    }
    k as u32 + 1
}

pub fn wall_of(max: u16, operation: u8) -> u32
    ensures { result ≡ wall max operation }
{
    pick(operation < 2, max as u32 + 1, 0)
}

pub fn in_range(max: u16, operation: u8, k: u32) -> bool
    ensures { result ≡ in_range max operation k }
{
    pick(
        operation < 2,
        (1..=max as u32 + 1).contains(&k),
        k <= max as u32,
    )
}

pub fn order_fits(operation: u8, v: u32) -> bool
    ensures { result ≡ order_fits operation v }
{
    pick(is_push(operation), 3 <= v, v == 0)
}
