//! Laws of the ports of a core. The functions do nothing: what they ensure are the laws.

ghost use Rattle.sp_port_nets.specs.Laws.{ArgumentsArePorts, OutputsArePorts, ArgumentsStand, ArgumentsHaveWords};

/// The arguments' ports are those of the arguments, in order, and each argument has the net of its port.
pub fn arguments_are_ports()
    ensures { ArgumentsArePorts }
{}

/// The outputs' ports are those of the outputs, in order.
pub fn outputs_are_ports()
    ensures { OutputsArePorts }
{}

/// Before a core begins each argument holds the word that the input has for it.
pub fn arguments_stand()
    ensures { ArgumentsStand }
{}

/// Where ports have the words of the input, so have the nets of arguments.
pub fn arguments_have_words()
    ensures { ArgumentsHaveWords }
{}
