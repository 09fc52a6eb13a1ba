//! The members that are read of node templates.
ghost use Rattle.std.specs.Prelude.{◌≡◌, option_map};
ghost use Rattle.serde_json.specs.View.{view};
ghost use Rattle.vnfd_document.specs.Places.{property};
ghost use Rattle.vnfd_nodes.specs.Nodes.{cpus_at as the_cpus, maximum_at as the_maximum, memory_at as the_memory};
ghost use Rattle.vnfd_nodes.specs.Nodes.{name as the_name, property_of as the_property, size, size_at as the_size};

use crate::sizes::size_in;
use serde_json::Value;
use vnfd_document::{at, name_in, name_or_empty};
use vnfm_base::Name;

/// The memory of a VDU.
pub fn memory_at(vdu: &Value) -> Option<&Value>
    ensures { option_map (λ v. view v.now) result ≡ the_memory (view vdu.now) }
{
    at(
        vdu,
        &[
            "capabilities",
            "virtual_compute",
            "properties",
            "virtual_memory",
            "virtual_mem_size",
        ],
    )
}

/// The processors of a VDU.
pub fn cpus_at(vdu: &Value) -> Option<&Value>
    ensures { option_map (λ v. view v.now) result ≡ the_cpus (view vdu.now) }
{
    at(
        vdu,
        &[
            "capabilities",
            "virtual_compute",
            "properties",
            "virtual_cpu",
            "num_virtual_cpu",
        ],
    )
}

/// The greatest number of instances of a VDU.
pub fn maximum_at(vdu: &Value) -> Option<&Value>
    ensures { option_map (λ v. view v.now) result ≡ the_maximum (view vdu.now) }
{
    at(
        vdu,
        &["properties", "vdu_profile", "max_number_of_instances"],
    )
}

/// The size of a storage.
pub fn size_at(storage: &Value) -> Option<&Value>
    ensures { option_map (λ v. view v.now) result ≡ the_size (view storage.now) }
{
    at(
        storage,
        &[
            "properties",
            "virtual_block_storage_data",
            "size_of_storage",
        ],
    )
}

/// A property of the product.
pub fn property_at<'a>(product: &'a Value, key: &str) -> Option<&'a Value>
    ensures { option_map (λ v. view v.now) result ≡ property key.now (view product.now) }
{
    at(product, &["properties", key])
}

/// The size that a value is, in bytes.
pub fn size_of_value(value: &Value) -> Option<u64>
    ensures { result ≡ size (view value.now) }
{
    size_in(value.as_str()?)
}

/// The name that a value is.
pub fn name_of_value(value: &Value) -> Option<Name>
    ensures { result ≡ the_name (view value.now) }
{
    name_in(value.as_str()?)
}

/// A property of the product where it is a name, else the empty name.
pub fn property_of(product: &Value, key: &str) -> Name
    ensures { result ≡ the_property (view product.now) key.now }
{
    match property_at(product, key).and_then(name_of_value) {
        Some(name) => name,
        None => name_or_empty(""),
    }
}
