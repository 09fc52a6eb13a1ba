//! The descriptor of the trial: an edge router of two kinds of machines, one aspect and two levels.
ghost use Rattle.std.specs.Prelude.{◌≡◌};

/// Its bytes, a document of SOL 001 as JSON (docs/DESCRIPTORS.md).
const DESCRIPTOR: &str =
    r#"{"tosca_definitions_version":"tosca_simple_yaml_1_2","topology_template":{"node_templates":{
"VNF":{"type":"example.Vnf","properties":{"descriptor_id":"vnfd-1","provider":"Example","product_name":"Edge Router",
"software_version":"1.0","descriptor_version":"1.0","flavour_id":"simple"}},
"VDU_A":{"type":"tosca.nodes.nfv.Vdu.Compute","properties":{"vdu_profile":{"max_number_of_instances":11}},
"capabilities":{"virtual_compute":{"properties":{"virtual_memory":{"virtual_mem_size":"2 GiB"},
"virtual_cpu":{"num_virtual_cpu":2}}}},"requirements":[{"virtual_storage":"STO_A"}]},
"VDU_B":{"type":"tosca.nodes.nfv.Vdu.Compute",
"capabilities":{"virtual_compute":{"properties":{"virtual_memory":{"virtual_mem_size":"512 MB"},
"virtual_cpu":{"num_virtual_cpu":1}}}},"requirements":[{"virtual_storage":{"node":"STO_B"}}]},
"STO_A":{"type":"tosca.nodes.nfv.Vdu.VirtualBlockStorage",
"properties":{"virtual_block_storage_data":{"size_of_storage":"10 GB"}}},
"STO_B":{"type":"tosca.nodes.nfv.Vdu.VirtualBlockStorage",
"properties":{"virtual_block_storage_data":{"size_of_storage":"1 GB"}}},
"net_data":{"type":"tosca.nodes.nfv.VnfVirtualLink"},
"net_mgmt":{"type":"tosca.nodes.nfv.VnfVirtualLink"},
"CP_A_data":{"type":"tosca.nodes.nfv.VduCp","requirements":[{"virtual_binding":"VDU_A"},{"virtual_link":"net_data"}]},
"CP_A_mgmt":{"type":"tosca.nodes.nfv.VduCp","requirements":[{"virtual_binding":"VDU_A"},{"virtual_link":"net_mgmt"}]},
"CP_B_mgmt":{"type":"tosca.nodes.nfv.VduCp","requirements":[{"virtual_binding":"VDU_B"},{"virtual_link":"net_mgmt"}]}},
"policies":[
{"aspects":{"type":"tosca.policies.nfv.ScalingAspects",
"properties":{"aspects":{"workers":{"max_scale_level":10,"step_deltas":["delta_1"]}}}}},
{"a_initial":{"type":"tosca.policies.nfv.VduInitialDelta",
"properties":{"initial_delta":{"number_of_instances":1}},"targets":["VDU_A"]}},
{"a_deltas":{"type":"tosca.policies.nfv.VduScalingAspectDeltas",
"properties":{"aspect":"workers","deltas":{"delta_1":{"number_of_instances":1}}},"targets":["VDU_A"]}},
{"levels":{"type":"tosca.policies.nfv.InstantiationLevels",
"properties":{"levels":{"small":{"scale_info":{"workers":{"scale_level":0}}},
"normal":{"scale_info":{"workers":{"scale_level":1}}}},"default_level":"normal"}}},
{"a_levels":{"type":"tosca.policies.nfv.VduInstantiationLevels",
"properties":{"levels":{"small":{"number_of_instances":1},"normal":{"number_of_instances":2}}},"targets":["VDU_A"]}}]}}
"#;

/// The bytes of the descriptor.
///
/// Source: own rule, docs/FORMATS.md, "The trial".
pub fn descriptor_text() -> &'static [u8]
    ensures { result.now ≡ DESCRIPTOR.now }
{
    DESCRIPTOR.as_bytes()
}
