//! In which order chains come back, on a split ring of 8 places.
use super::played::{Parties, chain_of, come_back, most_open};
use std::test::*;
use vd_model::{Base, Features};
use vd_split::Split;

const PLAIN: Features = Features {
    indirect: false,
    event_idx: false,
    in_order: false,
};

const USUAL: Parties = Parties {
    features: PLAIN,
    window: 4,
    in_turns: false,
    single: false,
};

const IN_ORDER: Parties = Parties {
    features: Features {
        indirect: false,
        event_idx: false,
        in_order: true,
    },
    window: 4,
    in_turns: false,
    single: false,
};

const WINDOW_OF_ONE: Parties = Parties {
    features: PLAIN,
    window: 1,
    in_turns: false,
    single: false,
};

const SINGLE: Parties = Parties {
    features: PLAIN,
    window: 4,
    in_turns: false,
    single: true,
};

const IN_TURNS: Parties = Parties {
    features: PLAIN,
    window: 4,
    in_turns: true,
    single: true,
};

#[test]
fn the_last_begun_is_given_first(rt: HostRuntime) -> Result<(), Fail> {
    let chain = chain_of(10, 64);
    assert_eq!(rt;
        come_back::<Split>(rt.alloc(), USUAL, &chain, &[3, 2, 1, 0, 5, 4], 10)?,
        Some(Base(6))
    );
    assert_eq!(rt;
        come_back::<Split>(rt.alloc(), USUAL, &chain, &[], 10)?,
        Some(Base(0))
    );
    Ok(())
}

#[test]
fn the_first_begun_is_given_first(rt: HostRuntime) -> Result<(), Fail> {
    let chain = chain_of(64, 4);
    let order = [0, 1, 2, 3, 4, 5];
    assert_eq!(rt;
        come_back::<Split>(rt.alloc(), IN_ORDER, &chain, &order, 4)?,
        Some(Base(6))
    );
    assert_eq!(rt;
        come_back::<Split>(rt.alloc(), WINDOW_OF_ONE, &chain, &order, 4)?,
        Some(Base(6))
    );
    assert_eq!(rt;
        come_back::<Split>(rt.alloc(), SINGLE, &chain, &order, 4)?,
        Some(Base(6))
    );
    Ok(())
}

/// The device answers each offer at once, so no second chain is open where the guest collects before it offers again.
#[test]
fn a_guest_that_takes_turns_collects_between_its_offers(rt: HostRuntime) -> Result<(), Fail> {
    assert_eq!(rt;
        most_open::<Split>(rt.alloc(), IN_TURNS, &chain_of(10, 64), 3)?,
        Some(1)
    );
    Ok(())
}
