// Why a call is turned down: a reason from a fixed table, the layer that refused, and the place.
#![tactic(auto)]

ghost use Rattle.std.specs.Prelude.{◌≡◌, ℕ};

mod layer;
mod reason;
mod text;

pub use layer::Layer;
pub use reason::Reason;

// A refusal. The place is 0 unless the reason names one: a line, a cite, a job, or the length needed. (No Option: C code and
// whoever reads a refusal has its place as a number, 0 where there is none.)
#[derive(Clone, Copy, PartialEq, Eq)]
pub struct Refusal {
    pub reason: Reason,
    pub layer: Layer,
    pub place: u32,
}

impl Refusal {
    // The refusal of a layer for a reason, at place 0.
    pub fn by(layer: Layer, reason: Reason) -> Refusal
        ensures layer_and_reason_at_place_0 { result ≡ record { reason = reason; layer = layer; place = 0 } }
    {
        Refusal {
            reason,
            layer,
            place: 0,
        }
    }

    // The same refusal at another place.
    pub fn at(self, place: u32) -> Refusal
        ensures place_alone_is_new { result ≡ record { reason = self.reason; layer = self.layer; place = place } }
    {
        Refusal { place, ..self }
    }
}
