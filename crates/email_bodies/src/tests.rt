// Bodies that stay, and those that have gone.
use crate::{BodyCache, MAX_BODIES};
use octets::Bytes;
use std::alloc::{AllocError, Global};
use std::process::Abort;
use std::test::Fail;

fn keep(alloc: Global, kept: &mut BodyCache, email: u64, body: &[u8]) -> Result<(), AllocError> {
    kept.put(email, Bytes::copy_of(alloc, body)?)
}

fn expect_body(rt: &impl Abort, found: Option<Bytes>, body: &[u8]) {
    match found {
        None => assert!(rt; false),
        Some(octets) => assert!(rt; octets.as_slice() == body),
    }
}

#[test]
fn a_body_is_kept_once(rt: HostRuntime) -> Result<(), Fail> {
    let alloc = rt.alloc();
    let mut kept = BodyCache::new(alloc)?;
    assert!(rt; kept.get(7)?.is_none());
    keep(alloc, &mut kept, 7, b"first")?;
    expect_body(&rt, kept.get(7)?, b"first");
    keep(alloc, &mut kept, 7, b"")?;
    expect_body(&rt, kept.get(7)?, b"");
    assert!(rt; kept.get(8)?.is_none());
    Ok(())
}

#[test]
fn the_one_used_longest_ago_goes(rt: HostRuntime) -> Result<(), Fail> {
    let alloc = rt.alloc();
    let mut kept = BodyCache::new(alloc)?;
    for email in 0..MAX_BODIES as u64 {
        keep(alloc, &mut kept, email, b"body")?;
    }
    expect_body(&rt, kept.get(0)?, b"body");
    keep(alloc, &mut kept, 100, b"more")?;
    assert!(rt; kept.get(1)?.is_none());
    expect_body(&rt, kept.get(0)?, b"body");
    expect_body(&rt, kept.get(2)?, b"body");
    expect_body(&rt, kept.get(100)?, b"more");
    Ok(())
}

#[test]
fn thirty_three_others_push_it_out(rt: HostRuntime) -> Result<(), Fail> {
    let alloc = rt.alloc();
    let mut kept = BodyCache::new(alloc)?;
    keep(alloc, &mut kept, 1, b"body")?;
    for email in 2..33 {
        keep(alloc, &mut kept, email, b"other")?;
    }
    expect_body(&rt, kept.get(1)?, b"body");
    for email in 33..66 {
        keep(alloc, &mut kept, email, b"other")?;
    }
    assert!(rt; kept.get(1)?.is_none());
    Ok(())
}
