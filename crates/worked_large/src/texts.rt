//! The text of a large configuration.

use crate::seven;
use config_print::print_config;
use std::alloc::{AllocError, Global};
use std::test::Fail;
use workload::{large, large_law};

/// The text of the large configuration of a number.
fn printed(alloc: Global, number: u64) -> Result<String, AllocError> {
    large_law();
    let config = large(alloc, number)?;
    print_config(alloc, &config)
}

#[test]
fn text_of_seven(rt: HostRuntime) -> Result<(), Fail> {
    assert_eq!(rt; printed(rt.alloc(), 7)?.as_str(), seven::text());
    Ok(())
}
