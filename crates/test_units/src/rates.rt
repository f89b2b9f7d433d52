//! A test of how many bytes a shard accepts within one second.
use kds_base::Moment;
use kds_rate::Window;

#[test]
fn a_second_of_bytes(rt: HostRuntime) {
    let mut window = Window::new();
    let now = Moment::start();
    assert!(rt; window.admits(now, 2_000_000));
    window.count(now, 1_048_576);
    assert!(rt; window.admits(now, 0));
    assert!(rt; !window.admits(now, 1));
    let later = Moment::new(1_000).unwrap_or(now);
    assert!(rt; window.admits(later, 2_000_000));
}
