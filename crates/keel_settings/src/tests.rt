use crate::Settings;
use keel_base::{OptionName, Range};

#[test]
fn a_value_within_its_range_is_set(rt: HostRuntime) {
    let mut settings = Settings::new();
    assert!(rt; settings.set(OptionName::Ratio, 1_000_000).is_ok());
    assert_eq!(rt; settings.options().get(OptionName::Ratio), 1_000_000);
    assert_eq!(rt; settings.options().get(OptionName::Interval), 1000);
}

#[test]
fn the_range_is_handed_out(rt: HostRuntime) {
    let range = Range {
        least: 1,
        greatest: 16,
    };
    assert_eq!(rt;
        Settings::new().set(OptionName::MaxImmutables, 0),
        Err(range)
    );
}
