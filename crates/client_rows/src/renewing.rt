//! Calls that renew the server's session.

use crate::talks::is_waited;
use my_reading::CallKind;
use my_session::{ChangeUser, ResetRoutine, Routine};
use std::test::Fail;

// The kind of the call that a routine begins.
fn kind_of<R: Routine>(routine: R) -> Option<CallKind> {
    match routine.into_call() {
        Ok(call) => {
            let kind = call.kind();
            drop(call);
            Some(kind)
        }
        Err(_) => None,
    }
}

const RENEWED: &str = "\
connect | @greeting turn @login_ok | ok
reset | turn @ok | ok
user bob | turn @ok | ok
account || bob
user bob secret shop | turn @ok | ok
ping | turn @ok | ok";

#[test]
fn ample_reset(rt: HostRuntime) -> Result<(), Fail> {
    assert!(rt; is_waited(rt.alloc(), RENEWED));
    assert!(rt; matches!(kind_of(ResetRoutine::new()), Some(CallKind::Reset)));
    assert!(rt; matches!(kind_of(ChangeUser::new()), Some(CallKind::ChangeUser)));
    Ok(())
}
