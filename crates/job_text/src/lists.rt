ghost use Rattle.std.specs.Prelude.{◌≡◌, ◌∷◌, [], ◌++◌, IfOk};

use bern_base::{Items, NoMemory};

/// A list with its last item after the others. Where it is the only one, there is room for no other.
pub(crate) fn with_last<T: Drop>(list: Items<T>, last: T) -> Result<Items<T>, NoMemory>
    ensures { IfOk result (λ whole. whole ≡ list ++ last ∷ []) }
{
    let mut whole = list.into_vec();
    whole.reserve_exact(1)?;
    whole.push_reserved(last);
    Ok(Items::from_vec(whole))
}

/// A list with one more item after the others, of a list that goes on: its first room is for two.
pub(crate) fn with_next<T: Drop>(list: Items<T>, next: T) -> Result<Items<T>, NoMemory>
    ensures { IfOk result (λ longer. longer ≡ list ++ next ∷ []) }
{
    let mut longer = list.into_vec();
    if longer.is_empty() {
        longer.reserve_exact(2)?;
    }
    longer.push(next)?;
    Ok(Items::from_vec(longer))
}
