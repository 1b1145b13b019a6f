// What the errors of the library's face print.
use nvm_flash::{AttachFault, MakeFault};
use nvm_laws::memif::{DeviceRefusal, StartFault};
use nvm_laws::{AskFault, ConfigFault};
use nvm_shared::ShareFault;
use std::error::Error;
use std::fmt::InlineText;

fn prints<E: Error>(error: E, wanted: &str) -> bool {
    InlineText::<128>::of(error).as_str() == wanted
}

#[test]
fn why_no_configuration_was_read(rt: HostRuntime) {
    let of_all = ConfigFault::Broken { rule: 24, block: 0 };
    assert!(rt; prints(of_all, "the configuration breaks rule 24"));
    let of_block = ConfigFault::Broken { rule: 13, block: 2 };
    assert!(rt; prints(of_block, "the configuration breaks rule 13 at block 2"));
    let memory = "there is no memory to read the configuration";
    assert!(rt; prints(ConfigFault::Memory, memory));
}

#[test]
fn why_no_flash_was_attached(rt: HostRuntime) {
    let fault = "the flash counted a fault while it was attached";
    assert!(rt; prints(AttachFault::Failed, fault));
    assert!(rt; prints(AttachFault::InUse, "another call has the flash in use"));
    let size = "the flash has 100 bytes in place of the geometry's sector times sectors";
    assert!(rt; prints(AttachFault::WrongSize { found: 100 }, size));
    let memory = "there is no memory to attach the flash";
    assert!(rt; prints(AttachFault::Memory, memory));
}

#[test]
fn why_no_stack_was_made(rt: HostRuntime) {
    let size = "the flash has 2048 bytes in place of the configuration's sector times sectors";
    assert!(rt; prints(MakeFault::WrongSize { found: 2048 }, size));
    let fault = "the flash counted a fault while the stack was made or started";
    assert!(rt; prints(MakeFault::Flash, fault));
    assert!(rt; prints(MakeFault::InUse, "another call has the flash in use"));
    let second = "the configuration names a second device, and none is handed in";
    assert!(rt; prints(MakeFault::NoSecond, second));
    let memory = "there is no memory for the stack";
    assert!(rt; prints(MakeFault::Memory, memory));
}

#[test]
fn why_no_stack_is_shared(rt: HostRuntime) {
    let fault = "the device counted a fault, so its start-up didn't come to its end";
    assert!(rt; prints(StartFault::Fault, fault) && prints(ShareFault::Fault, fault));
    let cap = "the cap of the history has to be at least 2, for the start-up and an Off";
    assert!(rt; prints(ShareFault::NoRoom, cap));
    let memory = "there is no memory to share the stack";
    assert!(rt; prints(ShareFault::Memory, memory));
}

#[test]
fn why_no_request_was_taken(rt: HostRuntime) {
    let room = "the history has no room for the request: start a new stack over the same device";
    assert!(rt; prints(AskFault::NoRoom, room));
    let memory = "there is no memory for the request, and nothing changed";
    assert!(rt; prints(AskFault::Memory, memory));
}

#[test]
fn why_no_job_was_taken(rt: HostRuntime) {
    let busy = "the device has an open job: make turns until it ends, or cancel it";
    assert!(rt; prints(DeviceRefusal::Busy, busy));
    let uninit = "the device isn't started: its last start-up has to answer Ok";
    assert!(rt; prints(DeviceRefusal::Uninit, uninit));
    let number = "the number isn't one of those that the device was made for";
    assert!(rt; prints(DeviceRefusal::BadNumber, number));
    let length = "the length isn't the one that the device was made for at this number";
    assert!(rt; prints(DeviceRefusal::BadLength, length));
}
