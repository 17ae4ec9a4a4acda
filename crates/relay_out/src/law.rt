ghost use Rattle.std.specs.Prelude.{◌≡◌, ℕ, List};
ghost use Rattle.bmp_specs.specs.Octets.{AreOctets};
ghost use Rattle.bmp_specs.specs.Values.{EffectValue};
ghost use Rattle.relay_out.specs.Messages.{IsRelayStream};

/// A session has one relayed stream: of lists of octets, one alone is it. It does nothing: it tells this to a proof.
pub fn sessions_have_one_stream()
    ensures { (effects : List EffectValue) (a b : List ℕ) → AreOctets a → AreOctets b → IsRelayStream effects a → IsRelayStream effects b → a ≡ b }
{}
