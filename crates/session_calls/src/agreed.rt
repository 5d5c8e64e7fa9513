//! What a session agreed on.

ghost use Rattle.std.specs.Prelude.{◌≡◌, pos};
ghost use Rattle.session_calls.specs.Calls.{TellsAgreed, agreed_told, model_number};

use crate::held::HeldSession;
use std::alloc::Global;
use tn_session::{Agreed, ScreenModel};

/// What a session agreed on.
#[derive(Clone, Copy)]
#[repr(C)]
pub struct SessionStatus {
    /// Records and answers pass.
    pub ready: bool,
    /// It is TN3270E.
    pub enhanced: bool,
    /// Records are answered by RESPONSE records.
    pub responses: bool,
    /// The screen takes input: the session is ready, the screen has a field, the keyboard doesn't wait, and the cursor isn't at 0.
    pub takes_input: bool,
    /// The device takes the extended data stream.
    pub extended: bool,
    /// The device's model, 2 to 5; 0 before the session is ready.
    pub model: u8,
}

fn model_number(model: ScreenModel) -> u8
    ensures { result ≡ model_number model }
{
    match model {
        ScreenModel::Two => 2,
        ScreenModel::Three => 3,
        ScreenModel::Four => 4,
        ScreenModel::Five => 5,
    }
}

fn agreed_told(agreed: Option<Agreed>, takes_input: bool) -> SessionStatus
    ensures { result ≡ agreed_told agreed takes_input }
{
    match agreed {
        Some(agreed) => SessionStatus {
            ready: true,
            enhanced: agreed.enhanced,
            responses: agreed.responses,
            takes_input,
            extended: agreed.device.extended,
            model: model_number(agreed.device.model),
        },
        None => SessionStatus {
            ready: false,
            enhanced: false,
            responses: false,
            takes_input,
            extended: false,
            model: 0,
        },
    }
}

/// Leaves what the session agreed on, and whether its screen takes input. The status is 0; 2 where the handle is null: then nothing changes.
pub fn agreed_left(held: &mut HeldSession, alloc: Global, status: &mut SessionStatus) -> u8
    ensures told { TellsAgreed held.old.line status.old status.new (pos result) }
    ensures unchanged { held.new.line ≡ held.old.line }
{
    let Some(line) = held.take(alloc) else {
        return 2;
    };
    *status = agreed_told(line.session.agreed(), line.session.takes_input());
    held.put(alloc, line);
    0
}
