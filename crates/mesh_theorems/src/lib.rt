// Theorems over meshes: what is handed out is within the mesh, and a mesh within the limits is read to just what it states. There is no code
// here.
#![tactic(auto)]
