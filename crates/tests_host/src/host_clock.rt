use lq_host::HostClock;
use lq_outside::Clock;

#[test]
fn the_clock_is_past_2020_and_before_2200(rt: HostRuntime) {
    let mut clock = HostClock::new(&rt);
    let first = clock.now();
    assert!(rt; first > 1_577_836_800_000);
    assert!(rt; first < 7_258_118_400_000);
}
