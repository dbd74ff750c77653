//! Laws of the definitions of this crate, each the contract of a function with an empty body.

ghost use Rattle.std.specs.Prelude.{◌≡◌, ◌≢◌, ◌<◌, ℕ, None, Some, false};
ghost use Rattle.ct_word.specs.Nexuses.{IsNexus};
ghost use Rattle.ct_word.specs.declared.names.LunNo.{LunNo as AnyUnit};
ghost use Rattle.ct_word.specs.declared.names.Nexus.{Nexus as AnyNexus};
ghost use Rattle.ct_word.specs.declared.names.Node.{Node as AnyNode};
ghost use Rattle.ct_map.specs.Maps.{Declared, HasPlaces, nothing_declared, is_same_place};
ghost use Rattle.ct_map.specs.Maps.{node_of, with_port, unit_of, with_unit};

/// At first no port is there. A port that is added is at its node, and the others are where they were.
pub fn ports_apart()
    ensures none { (port : ℕ) → node_of nothing_declared port ≡ None }
    ensures added { (declared : Declared) (port : ℕ) (node : AnyNode) → HasPlaces declared → port < 16 →
        node_of (with_port declared port node) port ≡ Some node }
    ensures others { (declared : Declared) (port other : ℕ) (node : AnyNode) → other ≢ port →
        node_of (with_port declared port node) other ≡ node_of declared other }
{}

/// At first no logical unit is seen. One that is added is seen under its number, and the others as they were.
pub fn units_apart()
    ensures none { (nexus : AnyNexus) (x : ℕ) → unit_of nothing_declared nexus x ≡ None }
    ensures added { (declared : Declared) (nexus : AnyNexus) (x : ℕ) (unit : AnyUnit) →
        HasPlaces declared → IsNexus nexus → x < 16 →
        unit_of (with_unit declared nexus x unit) nexus x ≡ Some unit }
    ensures others { (declared : Declared) (nexus other : AnyNexus) (x y : ℕ) (unit : AnyUnit) →
        IsNexus nexus → x < 16 → is_same_place other y nexus x ≡ false →
        unit_of (with_unit declared nexus x unit) other y ≡ unit_of declared other y }
{}
