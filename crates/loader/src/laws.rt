//! Laws, as the contracts of calls that do nothing.

ghost use Rattle.std.specs.Prelude.{[]};
ghost use Rattle.config_text.specs.declared.config.Config.{Config as ConfigText};
ghost use Rattle.config_text.specs.Valid.{IsValid};
ghost use Rattle.class_model.specs.Valid.{IsConfig};
ghost use Rattle.loader.specs.Configuration.{configuration};
ghost use Rattle.loader.specs.Records.{Volumes, AreVolumes, Loads, records_of};

/// A valid configuration, as the machines' plain data, is a valid one there.
#[tactic(auto, using(crate::proofs::Validity::is_config))]
pub fn valid_law()
    ensures { (k : ConfigText) → IsValid k → IsConfig (configuration k []) }
{}

/// Where no record of its volumes is at fault, a valid configuration is a valid one with these records.
#[tactic(auto, using(crate::proofs::Records::loaded_config))]
pub fn volumes_law()
    ensures { (k : ConfigText) → IsValid k → (vs : Volumes) → AreVolumes k vs → Loads k vs → IsConfig (configuration k (records_of vs)) }
{}
